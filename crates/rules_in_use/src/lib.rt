//! The index of the rules that some process has on a board, kept exact from commit to commit.
#![tactic(auto)]

mod in_use;

pub use in_use::RulesInUse;
