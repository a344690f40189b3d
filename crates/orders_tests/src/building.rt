// Letters, two symbols, their interpretations and terms over them.
ghost use Rattle.std.specs.Prelude.{[], ◌∷◌, ◌≡◌, ◌≤◌, IfOk, length};
ghost use Rattle.kb_term.specs.Tree.{apply, more_trees, no_trees};
ghost use Rattle.kb_term.specs.View.{tree_of};
ghost use Rattle.kb_linear.specs.Limits.{IsMeasurable};

use kb_linear::Interp;
use kb_term::{Memory, Signature, Symbol, Term, Terms};
use std::alloc::Global;
use std::process::Abort;

/// The name of one letter.
pub(crate) fn letter(alloc: Global, b: u8) -> Result<Vec<u8>, Memory>
    ensures { IfOk result (λ name. name.items ≡ b ∷ []) }
{
    let mut name = Vec::new(alloc);
    name.push(b)?;
    Ok(name)
}

/// The signature of f and g.
pub(crate) fn two_symbols(alloc: Global) -> Result<Signature, Memory>
    ensures { IfOk result (λ sig. length sig ≡ 2) }
{
    let f = letter(alloc, b'f')?;
    let g = letter(alloc, b'g')?;
    let mut symbols = Vec::new(alloc);
    symbols.push((f, 1))?;
    symbols.push((g, 1))?;
    Ok(Signature::new(symbols))
}

// A constant and one coefficient.
fn row(alloc: Global, constant: u8, coefficient: u8) -> Result<(u8, Vec<u8>), Memory>
    ensures { IfOk result (λ r. (r.0 ≡ constant) × (r.1.items ≡ coefficient ∷ [])) }
{
    let mut coefficients = Vec::new(alloc);
    coefficients.push(coefficient)?;
    Ok((constant, coefficients))
}

/// f(x) = c + a x and g(x) = d + b x.
pub(crate) fn interpretation(rt: &impl Abort, alloc: Global, c: u8, a: u8, d: u8, b: u8) -> Interp
    requires f_constant { c ≤ 15 }
    requires f_least { 1 ≤ a }
    requires f_most { a ≤ 3 }
    requires g_constant { d ≤ 15 }
    requires g_least { 1 ≤ b }
    requires g_most { b ≤ 3 }
{
    let f = row(alloc, c, a).expect(rt, "memory");
    let g = row(alloc, d, b).expect(rt, "memory");
    let mut rows = Vec::new(alloc);
    rows.push(f).expect(rt, "memory");
    rows.push(g).expect(rt, "memory");
    Interp::new(rows)
}

/// f or g applied to the term.
pub(crate) fn unary(rt: &impl Abort, alloc: Global, f: u8, t: Term) -> Term
    ensures { tree_of result ≡ apply f (more_trees (tree_of t) no_trees) }
{
    let mut items = Vec::new(alloc);
    items.push(t).expect(rt, "memory");
    Term::App(Symbol(f), Terms::new(items))
}

/// Two symbols applied in turn to a variable.
pub(crate) fn two(rt: &impl Abort, alloc: Global, f: u8, g: u8) -> Term
    ensures { IsMeasurable (tree_of result) }
{
    let inner = unary(rt, alloc, g, Term::Var(0));
    unary(rt, alloc, f, inner)
}

/// One symbol applied to a variable.
pub(crate) fn one(rt: &impl Abort, alloc: Global, f: u8) -> Term
    ensures { IsMeasurable (tree_of result) }
{
    unary(rt, alloc, f, Term::Var(0))
}
