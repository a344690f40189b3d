// Signatures, and the terms of the cases of unification.
ghost use Rattle.std.specs.Prelude.{◌≡◌, ◌<◌, ◌≤◌, ◌+◌, ◌∷◌, [], length, IfOk};
ghost use Rattle.kb_term.specs.Tree.{apply_to};
ghost use Rattle.kb_term.specs.View.{tree_of};

use kb_term::{Memory, Signature, Symbol, Term, Terms};
use std::alloc::Global;

/// The symbols a, b, c, .. with these arities.
pub(crate) fn signature(alloc: Global, arities: &[u8]) -> Result<Signature, Memory>
    requires { length arities.now ≤ 24 }
    ensures { IfOk result (λ sig. length sig ≡ length arities.now) }
{
    let mut symbols = Vec::new(alloc);
    for f in 0..arities.len() {
        let mut name = Vec::new(alloc);
        name.push(b'a' + f as u8)?;
        symbols.push((name, arities[f]))?;
    }
    Ok(Signature::new(symbols))
}

/// The symbol applied to one term.
pub(crate) fn unary(alloc: Global, f: u8, t: Term) -> Result<Term, Memory>
    ensures { IfOk result (λ u. tree_of u ≡ apply_to f (tree_of t ∷ [])) }
{
    let mut items = Vec::new(alloc);
    items.push(t)?;
    Ok(Term::App(Symbol(f), Terms::new(items)))
}

/// The symbol applied to two terms.
pub(crate) fn binary(alloc: Global, f: u8, s: Term, t: Term) -> Result<Term, Memory>
    ensures { IfOk result (λ u. tree_of u ≡ apply_to f (tree_of s ∷ tree_of t ∷ [])) }
{
    let mut items = Vec::new(alloc);
    items.push(s)?;
    items.push(t)?;
    Ok(Term::App(Symbol(f), Terms::new(items)))
}

/// The full tree of symbol 0 over leaves that are variables: that of the leaf `at` is 64 times `half` more than
/// `step` times `at` up to 64.
pub(crate) fn full_tree(
    alloc: Global,
    height: u8,
    at: u16,
    step: u16,
    half: u16,
) -> Result<Term, Memory>
    requires { half ≤ 1 }
{
    if height == 0 {
        return Ok(Term::Var(at.wrapping_mul(step) % 64 + half * 64));
    }
    let left = full_tree(alloc, height - 1, at.wrapping_mul(2), step, half)?;
    let right = full_tree(
        alloc,
        height - 1,
        at.wrapping_mul(2).wrapping_add(1),
        step,
        half,
    )?;
    binary(alloc, 0, left, right)
}

/// The comb of symbol 0 over so many leaves and one more, 64 variables in turn, from 64 on where `half` is 1.
pub(crate) fn comb(alloc: Global, leaves: u16, step: u16, half: u16) -> Result<Term, Memory>
    requires { half ≤ 1 }
{
    let mut t = Term::Var(half * 64);
    for n in 0..leaves {
        let leaf = Term::Var(n.wrapping_mul(step) % 64 + half * 64);
        t = binary(alloc, 0, leaf, t)?;
    }
    Ok(t)
}

/// The symbol 1 applied to the variables from 0 to 7.
pub(crate) fn eight_variables(alloc: Global) -> Result<Term, Memory> {
    let mut items = Vec::new(alloc);
    for n in 0..8 {
        items.push(Term::Var(n))?;
    }
    Ok(Term::App(Symbol(1), Terms::new(items)))
}

/// The symbol 1 applied to eight terms f(x, x) of symbol 0, where x is the variable from 1 to 8.
pub(crate) fn eight_doubles(alloc: Global) -> Result<Term, Memory> {
    let mut items = Vec::new(alloc);
    for n in 1..9 {
        items.push(binary(alloc, 0, Term::Var(n), Term::Var(n))?)?;
    }
    Ok(Term::App(Symbol(1), Terms::new(items)))
}
