//! The checker of answers: its yes is a theorem.
//!
//! It stands on terms, overlaps, rewriting, orders, traces and laws alone.
#![tactic(auto)]

mod answer;
mod checking;
mod closing;
mod joining;
mod laws;
mod pairing;
mod verdict;

pub use answer::Answer;
pub use checking::{check, rules_alone};
pub use laws::verdicts_are_one;
pub use verdict::{Checked, Reject};
