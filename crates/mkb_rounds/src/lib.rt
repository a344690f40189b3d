//! Rounds: workers complete a board, and the journal is the same for every number of them.
//!
//! A round takes up to eight tickets, works them in threads, and ends them in the order of their numbers.
#![tactic(auto)]

mod ending;
mod laws;
mod rounds;
mod stealing;
mod taking;

pub use laws::rounds_have_one_journal;
pub use rounds::work_rounds;
