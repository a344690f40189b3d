//! What jobs propose: each a function of what it reads of the board.
#![tactic(auto)]

mod closing;
mod groups;
mod laws;
mod orienting;
mod overlapping;
mod reducing;
mod rules;
mod searching;
mod working;

pub use closing::{CloseSnapshot, close};
pub use laws::work_is_as_on_the_board;
pub use orienting::{OrientSnapshot, orient};
pub use overlapping::{OverlapSnapshot, overlap};
pub use reducing::{ReduceSnapshot, reduce};
pub use rules::{NamedRules, SharedPair, SharedRules};
pub use searching::{FamilySearcher, Searcher};
pub use working::{Snapshot, work, work_by};
