// Where a name stands in a list of names in their order.
ghost use Rattle.std.specs.Prelude.{◌≡◌, ◌<◌, ◌≤◌, length, get_or, Contains, MatchOption};
ghost use Rattle.kb_label.specs.Names.{IsInNameOrder};

use kb_label::Process;
use std::cmp::Ordering;

/// The place of a name, by a search that begins at a place. It goes up from there by steps that double, as far as names
/// come before this one, and then halves what is left.
pub(crate) fn place_from(names: &[Process], start: usize, name: &Process) -> Option<usize>
    requires { IsInNameOrder names.now }
    ensures { MatchOption result (¬ Contains names.now name.now) (λ k. (k < length names.now) × (get_or names.now k name.now ≡ name.now)) }
{
    let mut low = 0;
    let mut high = names.len();
    let mut next = start;
    let mut step: usize = 1;
    while low < high {
        let place = place_between(low, high, next);
        match names[place].cmp(name) {
            Ordering::Equal => return Some(place),
            Ordering::Less => {
                low = place + 1;
                next = next.saturating_add(step);
                step = step.saturating_mul(2);
            }
            Ordering::Greater => {
                high = place;
                next = usize::MAX;
            }
        }
    }
    None
}

// The next place to look at: the one that is wished for where it comes before the end, else the middle.
fn place_between(low: usize, high: usize, next: usize) -> usize
    requires some { low < high }
    requires wished { low ≤ next }
    ensures from { low ≤ result }
    ensures before { result < high }
    ensures most { result ≤ next }
{
    if next < high {
        next
    } else {
        low + (high - low) / 2
    }
}
