//! How long an overlap waits: of one worker alone, by the selection `size`.
//!
//! The one function has an empty body: its clauses are theorems over the definitions of this crate and of `mkb_model`.
#![tactic(auto)]

mod laws;

pub use laws::overlaps_wait_their_turn;
