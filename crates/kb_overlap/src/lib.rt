//! Critical pairs: where two rules overlap.
#![tactic(auto)]

mod alike;
mod instance;
mod overlap;
mod pair_side;
mod positions;
mod renaming;

pub use alike::overlaps_alike;
pub use overlap::{Overlap, overlap_at, overlaps};
pub use pair_side::{other_side_of, side_of};
pub use positions::positions_for;
