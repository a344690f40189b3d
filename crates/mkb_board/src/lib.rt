//! The board that workers share: the state, the tickets in flight and the journal.
#![tactic(auto)]

mod answers;
mod board;
mod choosing;
mod cost;
mod due;
mod finishing;
mod holding;
mod laws;
mod settling;
mod shelf;
mod snapshots;
mod takable;
mod taking;
mod working;

pub use answers::{Finished, Taken};
pub use board::Board;
pub use laws::{commits_can_be_followed, held_tickets_stay};
