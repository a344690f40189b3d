// The sides of a pair by their numbers.
ghost use Rattle.std.specs.Prelude.{◌≡◌};
ghost use Rattle.kb_term.specs.View.{tree_of};
ghost use Rattle.kb_overlap.specs.Trace.{side, other_side};

use kb_term::{Pair, Term};

/// The side of the pair with the number: side 0 is the first term, any other the second.
pub fn side_of(pair: &Pair, number: u8) -> &Term
    ensures { tree_of result.now ≡ side pair.now number }
{
    if number == 0 {
        pair.first()
    } else {
        pair.second()
    }
}

/// The side of the pair that hasn't the number.
pub fn other_side_of(pair: &Pair, number: u8) -> &Term
    ensures { tree_of result.now ≡ other_side pair.now number }
{
    if number == 0 {
        pair.second()
    } else {
        pair.first()
    }
}
