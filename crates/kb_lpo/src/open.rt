// Which comparison of symbols decides next. Which one it is steers the search alone, so no contract says it.
ghost use Rattle.std.specs.Prelude.{◌<◌, length, IfSome};

use crate::known::Known;
use crate::order::{agreement, is_same, occurs};
use kb_term::{Rule, Symbol, Term};

/// Whether a term is above another by what is known, or else two symbols between which nothing is known yet.
#[derive(Clone, Copy)]
enum Verdict {
    Holds,
    Fails,
    Open(Symbol, Symbol),
}

/// A rule that what is known doesn't decide, by its place, and two symbols that it compares first of all that are open, the
/// lesser number first. What is known decides the rules before it.
#[derive(Clone, Copy)]
pub(crate) struct OpenPair {
    pub(crate) place: usize,
    pub(crate) first: Symbol,
    pub(crate) second: Symbol,
}

/// The first comparison that is open.
pub(crate) fn open_pair(known: &Known, rules: &[Rule]) -> Option<OpenPair>
    ensures { IfSome result (λ pair. pair.place < length rules.now) }
{
    for place in 0..rules.len() {
        if let Verdict::Open(f, g) = verdict_of(known, rules[place].left(), rules[place].right()) {
            let (first, second) = if f.0 < g.0 { (f, g) } else { (g, f) };
            return Some(OpenPair {
                place,
                first,
                second,
            });
        }
    }
    None
}

#[cycle(verdict_of)]
fn verdict_of(known: &Known, s: &Term, t: &Term) -> Verdict {
    match (s, t) {
        (Term::Var(_), _) => Verdict::Fails,
        (Term::App(_, _), Term::Var(n)) => {
            if occurs(s, *n) {
                Verdict::Holds
            } else {
                Verdict::Fails
            }
        }
        (Term::App(f, front), Term::App(g, back)) => {
            let ss = front.items();
            let ts = back.items();
            if *f == *g {
                let n = agreement(ss, ts);
                if n < ss.len() && n < ts.len() {
                    return match verdict_of(known, &ss[n], &ts[n]) {
                        Verdict::Holds => verdict_on_each(known, s, ts, n + 1),
                        Verdict::Fails => verdict_on_some(known, ss, n + 1, t),
                        open => open,
                    };
                }
                verdict_on_some(known, ss, n, t)
            } else if known.is_from(*f, *g) {
                verdict_on_each(known, s, ts, 0)
            } else if known.is_from(*g, *f) {
                verdict_on_some(known, ss, 0, t)
            } else {
                Verdict::Open(*f, *g)
            }
        }
    }
}

/// Whether `s` is above each of the terms from the place on.
#[cycle(verdict_of)]
fn verdict_on_each(known: &Known, s: &Term, ts: &[Term], from: usize) -> Verdict {
    for j in from..ts.len() {
        match verdict_of(known, s, &ts[j]) {
            Verdict::Holds => {}
            other => return other,
        }
    }
    Verdict::Holds
}

/// Whether one of the terms from the place on is `t` or above it.
#[cycle(verdict_of)]
fn verdict_on_some(known: &Known, ss: &[Term], from: usize, t: &Term) -> Verdict {
    let mut open = Verdict::Fails;
    for k in from..ss.len() {
        if is_same(&ss[k], t) {
            return Verdict::Holds;
        }
        match verdict_of(known, &ss[k], t) {
            Verdict::Holds => return Verdict::Holds,
            Verdict::Fails => {}
            other => open = other,
        }
    }
    open
}
