// Terms that are still to be read.
ghost use Rattle.std.specs.Prelude.{◌≡◌, [], ◌∷◌, MatchOption};
ghost use Rattle.kb_term.specs.View.{tree_of};
ghost use Rattle.rule_index.specs.Pending.{pending};

use kb_term::Term;

/// Terms that are still to be read, from the left: arguments that are left, and then those of the terms around.
#[derive(Drop)]
pub(crate) enum Pending<'a> {
    Nothing,
    Terms(&'a [Term], &'a Pending<'a>),
    /// The term so many times.
    Repeated(&'a Term, usize, &'a Pending<'a>),
}

/// The next term and what is left behind it; none where nothing is left.
pub(crate) fn next<'a>(stack: &Pending<'a>) -> Option<(&'a Term, Pending<'a>)>
    ensures { MatchOption result (pending stack.now ≡ []) (λ p. pending stack.now ≡ tree_of p.0.now ∷ pending p.1) }
{
    match stack {
        Pending::Nothing => None,
        Pending::Terms(terms, below) => match terms.split_first() {
            Some((first, rest)) => Some((first, Pending::Terms(rest, below))),
            None => next(below),
        },
        Pending::Repeated(t, count, below) => {
            if *count == 0 {
                next(below)
            } else {
                Some((*t, Pending::Repeated(t, *count - 1, below)))
            }
        }
    }
}
