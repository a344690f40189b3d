// What rules need of a precedence.
ghost use Rattle.std.specs.Prelude.{ℕ, List, ◌≡◌, map, ◌+◌, ◌<◌, ◌≤◌, IsSomeAnd};
ghost use Rattle.kb_term.specs.View.{tree_of};
ghost use Rattle.kb_term.specs.Tree.{Tree};
ghost use Rattle.kb_term.specs.Pair.{place_in};
ghost use Rattle.kb_lpo.specs.PathOrder.{LpoGreater};
ghost use Rattle.kb_lpo.specs.Agreeing.{At, HasWitness, IsAboveEach};
ghost use Rattle.kb_lpo.specs.Search.{Fits};

use crate::known::{Known, either};
use crate::order::{agreement, is_same, occurs};
use crate::possible::possible;
use kb_term::{Symbol, Term};

/// Whether a way asks for no more than is known.
fn adds_nothing(way: &Option<Known>, known: &Known) -> bool {
    match way {
        Some(more) => *more == *known,
        None => false,
    }
}

/// What is known of every precedence that has `s` above `t`: none where there is no such precedence. Each way in which `s`
/// may be above `t` is followed, and what all of them share is known. The fuel bounds the steps; at its end nothing is added.
#[cycle(force)]
pub(crate) fn force(known: &Known, s: &Term, t: &Term, fuel: &mut u32) -> Option<Known>
    ensures { (prec : List ℕ) → Fits known.now prec → LpoGreater prec (tree_of s.now) (tree_of t.now) → IsSomeAnd result (λ more. Fits more prec) }
{
    if *fuel == 0 {
        return Some(*known);
    }
    *fuel -= 1;
    match (s, t) {
        (Term::Var(_), _) => None,
        (Term::App(_, _), Term::Var(n)) => { if occurs(s, *n) { Some(*known) } else { None } }
        (Term::App(f, front), Term::App(g, back)) => {
            let ss = front.items();
            let ts = back.items();
            if *f == *g {
                let n = agreement(ss, ts);
                if n < ss.len() && n < ts.len() {
                    let difference = force(known, &ss[n], &ts[n], fuel);
                    let first = force_each(difference, s, ts, n + 1, fuel);
                    if adds_nothing(&first, known) {
                        return Some(*known);
                    }
                    return either(first, force_witness(known, ss, n + 1, t, fuel));
                }
                force_witness(known, ss, n, t, fuel)
            } else if known.is_from(*f, *g) {
                force_each(Some(*known), s, ts, 0, fuel)
            } else if known.is_from(*g, *f) {
                force_witness(known, ss, 0, t, fuel)
            } else {
                let first = force_above(known, *f, *g, s, ts, fuel);
                either(first, force_below(known, *f, *g, ss, t, fuel))
            }
        }
    }
}

/// What is known where, besides what is needed first, `s` is above each of the terms from the place on.
#[cycle(force)]
fn force_each(
    first: Option<Known>,
    s: &Term,
    ts: &[Term],
    from: usize,
    fuel: &mut u32,
) -> Option<Known>
    ensures { (prec : List ℕ) → IsSomeAnd first (λ known. Fits known prec) → IsAboveEach prec (tree_of s.now) ts.now from → IsSomeAnd result (λ more. Fits more prec) }
{
    let mut more = first?;
    for j in from..ts.len() {
        more = force(&more, s, &ts[j], fuel)?;
    }
    Some(more)
}

/// What is known where one of the terms from the place on is `t` or above it.
#[cycle(force)]
fn force_witness(known: &Known, ss: &[Term], from: usize, t: &Term, fuel: &mut u32) -> Option<Known>
    ensures { (prec : List ℕ) → Fits known.now prec → HasWitness prec (tree_of t.now) (map tree_of ss.now) from → IsSomeAnd result (λ more. Fits more prec) }
{
    let mut shared = None;
    for k in from..ss.len() {
        if is_same(&ss[k], t) {
            return Some(*known);
        }
        let here = force_possible(known, &ss[k], t, fuel);
        if adds_nothing(&here, known) {
            return Some(*known);
        }
        shared = either(shared, here);
    }
    shared
}

/// What is known where `s` is above `t`, which is asked in fewer steps first.
#[cycle(force)]
fn force_possible(known: &Known, s: &Term, t: &Term, fuel: &mut u32) -> Option<Known>
    ensures { (prec : List ℕ) → Fits known.now prec → LpoGreater prec (tree_of s.now) (tree_of t.now) → IsSomeAnd result (λ more. Fits more prec) }
{
    if possible(known, s, t) {
        force(known, s, t, fuel)
    } else {
        None
    }
}

/// What is known where `f` is above `g` and `s` above each of the terms.
#[cycle(force)]
fn force_above(
    known: &Known,
    f: Symbol,
    g: Symbol,
    s: &Term,
    ts: &[Term],
    fuel: &mut u32,
) -> Option<Known>
    ensures { (prec : List ℕ) → Fits known.now prec → place_in prec f.0 ≤ place_in prec g.0 → IsAboveEach prec (tree_of s.now) ts.now 0 → IsSomeAnd result (λ more. Fits more prec) }
{
    let mut more = *known;
    more.put(f, g);
    force_each(Some(more), s, ts, 0, fuel)
}

/// What is known where `f` isn't above `g` and one of the terms is `t` or above it.
#[cycle(force)]
fn force_below(
    known: &Known,
    f: Symbol,
    g: Symbol,
    ss: &[Term],
    t: &Term,
    fuel: &mut u32,
) -> Option<Known>
    ensures { (prec : List ℕ) → Fits known.now prec → place_in prec g.0 ≤ place_in prec f.0 → HasWitness prec (tree_of t.now) (map tree_of ss.now) 0 → IsSomeAnd result (λ more. Fits more prec) }
{
    let mut more = *known;
    more.put(g, f);
    force_witness(&more, ss, 0, t, fuel)
}
