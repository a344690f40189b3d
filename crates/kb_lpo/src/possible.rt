// Whether rules may still be oriented.
ghost use Rattle.std.specs.Prelude.{ℕ, List, ◌≡◌, IsTrue, map, ◌+◌, ◌<◌, ◌≤◌};
ghost use Rattle.kb_term.specs.View.{tree_of};
ghost use Rattle.kb_lpo.specs.PathOrder.{LpoGreater};
ghost use Rattle.kb_lpo.specs.Agreeing.{Between, IsAboveEach, IsNoWitness};
ghost use Rattle.kb_lpo.specs.Search.{Fits};

use crate::known::Known;
use crate::order::{agreement, is_same, occurs};
use kb_term::Term;

/// Whether `s` may be above `t`: false where no precedence that fits what is known has it so.
#[cycle(possible)]
pub(crate) fn possible(known: &Known, s: &Term, t: &Term) -> bool
    ensures { (prec : List ℕ) → Fits known.now prec → LpoGreater prec (tree_of s.now) (tree_of t.now) → IsTrue result }
{
    match (s, t) {
        (Term::Var(_), _) => false,
        (Term::App(_, _), Term::Var(n)) => occurs(s, *n),
        (Term::App(f, front), Term::App(g, back)) => {
            let ss = front.items();
            let ts = back.items();
            if *f == *g {
                let n = agreement(ss, ts);
                if n < ss.len() && n < ts.len() {
                    if possible(known, &ss[n], &ts[n]) {
                        return possible_each(known, s, ts, n + 1);
                    }
                    return first_witness(known, ss, n + 1, t) < ss.len();
                }
                first_witness(known, ss, n, t) < ss.len()
            } else if known.is_from(*g, *f) {
                first_witness(known, ss, 0, t) < ss.len()
            } else {
                possible_each(known, s, ts, 0)
            }
        }
    }
}

/// Whether `s` may be above each of the terms from the place on.
#[cycle(possible)]
fn possible_each(known: &Known, s: &Term, ts: &[Term], from: usize) -> bool
    ensures { (prec : List ℕ) → Fits known.now prec → IsAboveEach prec (tree_of s.now) ts.now from → IsTrue result }
{
    for j in from..ts.len() {
        if !possible(known, s, &ts[j]) {
            return false;
        }
    }
    true
}

/// The first place from `from` on of a term that may be `t` or above it, or the number of terms.
#[cycle(possible)]
fn first_witness(known: &Known, ss: &[Term], from: usize, t: &Term) -> usize
    ensures { (prec : List ℕ) → Fits known.now prec → Between (IsNoWitness prec (tree_of t.now)) (map tree_of ss.now) from result }
{
    for k in from..ss.len() {
        if is_same(&ss[k], t) {
            return k;
        }
        if possible(known, &ss[k], t) {
            return k;
        }
    }
    ss.len()
}
