// The lexicographic path order under a given precedence.
ghost use Rattle.std.specs.Prelude.{◌≡◌, ◌↔◌, IsTrue, map, Contains, ◌+◌, ◌<◌, ◌≤◌};
ghost use Rattle.kb_term.specs.Tree.{variables_of, symbols_of};
ghost use Rattle.kb_term.specs.View.{tree_of};
ghost use Rattle.kb_lpo.specs.PathOrder.{LpoGreater, IsAbove};
ghost use Rattle.kb_term.specs.declared.term.Symbol.{Symbol};
ghost use Rattle.kb_lpo.specs.Agreeing.{HasWitness, IsAboveEach, IsAgreement};
ghost use Rattle.kb_lpo.specs.Search.{numbers};

use crate::precedence::Precedence;
use kb_term::{Symbol, Term, compare};
use std::cmp::Ordering;

/// Whether the variable occurs in the term.
pub(crate) fn occurs(t: &Term, x: u16) -> bool
    ensures { IsTrue result ↔ Contains (variables_of (tree_of t.now)) x }
{
    match t {
        Term::Var(n) => *n == x,
        Term::App(_, arguments) => {
            let items = arguments.items();
            for i in 0..items.len() {
                if occurs(&items[i], x) {
                    return true;
                }
            }
            false
        }
    }
}

/// Whether the symbol stands in the term.
pub(crate) fn has_symbol(t: &Term, f: Symbol) -> bool
    ensures { IsTrue result ↔ Contains (symbols_of (tree_of t.now)) f.0 }
{
    match t {
        Term::Var(_) => false,
        Term::App(g, arguments) => {
            if *g == f {
                return true;
            }
            let items = arguments.items();
            for i in 0..items.len() {
                if has_symbol(&items[i], f) {
                    return true;
                }
            }
            false
        }
    }
}

/// Whether the terms are the same.
pub(crate) fn is_same(a: &Term, b: &Term) -> bool
    ensures { IsTrue result ↔ (tree_of a.now ≡ tree_of b.now) }
{
    compare(a, b) == Ordering::Equal
}

/// How many first terms of the two lists agree. It takes no memory.
pub fn agreement(ss: &[Term], ts: &[Term]) -> usize
    ensures { IsAgreement (map tree_of ss.now) (map tree_of ts.now) result }
{
    let end = ss.len().min(ts.len());
    for i in 0..end {
        if !is_same(&ss[i], &ts[i]) {
            return i;
        }
    }
    end
}

/// Whether `f` stands before `g` in the precedence. It takes no memory.
pub fn is_above(symbols: &[Symbol], f: Symbol, g: Symbol) -> bool
    ensures { IsTrue result ↔ IsAbove (numbers symbols.now) f.0 g.0 }
{
    for i in 0..symbols.len() {
        if symbols[i] == g {
            return false;
        }
        if symbols[i] == f {
            return true;
        }
    }
    false
}

/// Whether `s` is above `t` in the lexicographic path order. Since `s` is above the arguments of all that it is above,
/// one case of the definition decides, so at most each subterm of `s` meets each subterm of `t` once.
#[cycle(greater)]
pub(crate) fn greater(symbols: &[Symbol], s: &Term, t: &Term) -> bool
    ensures { IsTrue result ↔ LpoGreater (numbers symbols.now) (tree_of s.now) (tree_of t.now) }
{
    match (s, t) {
        (Term::Var(_), _) => false,
        (Term::App(_, _), Term::Var(n)) => occurs(s, *n),
        (Term::App(f, front), Term::App(g, back)) => {
            let ss = front.items();
            let ts = back.items();
            if *f == *g {
                let n = agreement(ss, ts);
                if n < ss.len() && n < ts.len() {
                    if greater(symbols, &ss[n], &ts[n]) {
                        return is_above_each(symbols, s, ts, n + 1);
                    }
                    return is_reached(symbols, ss, n + 1, t);
                }
                is_reached(symbols, ss, n, t)
            } else if is_above(symbols, *f, *g) {
                is_above_each(symbols, s, ts, 0)
            } else {
                is_reached(symbols, ss, 0, t)
            }
        }
    }
}

/// Whether `s` is above each of the terms from the place on.
#[cycle(greater)]
fn is_above_each(symbols: &[Symbol], s: &Term, ts: &[Term], from: usize) -> bool
    ensures { IsTrue result ↔ IsAboveEach (numbers symbols.now) (tree_of s.now) ts.now from }
{
    for j in from..ts.len() {
        if !greater(symbols, s, &ts[j]) {
            return false;
        }
    }
    true
}

/// Whether one of the terms from the place on is `t` or above it.
#[cycle(greater)]
fn is_reached(symbols: &[Symbol], ss: &[Term], from: usize, t: &Term) -> bool
    ensures { IsTrue result ↔ HasWitness (numbers symbols.now) (tree_of t.now) (map tree_of ss.now) from }
{
    for k in from..ss.len() {
        if is_same(&ss[k], t) {
            return true;
        }
        if greater(symbols, &ss[k], t) {
            return true;
        }
    }
    false
}

/// Whether `s` is above `t` in the lexicographic path order over the precedence, in at most as many comparisons of
/// subterms as the product of the sizes of `s` and `t`.
pub fn lpo_greater(prec: &Precedence, s: &Term, t: &Term) -> bool
    ensures { IsTrue result ↔ LpoGreater prec.now (tree_of s.now) (tree_of t.now) }
{
    greater(prec.symbols(), s, t)
}
