//! An index of rules by their left sides: a discrimination tree.
#![tactic(auto)]

mod branch;
mod index;
mod laws;
mod mark;
mod pending;

pub use index::RuleIndex;
pub use laws::{marks_lead_loosely_where_left_sides_agree, marks_lead_where_left_sides_fit};
