//! The lexicographic path order and its search.
#![tactic(auto)]

mod known;
mod laws;
mod needs;
mod open;
mod order;
mod possible;
mod precedence;
mod search;

pub use laws::{
    lpo_halts, lpo_is_rewrite_order, lpo_is_strict_order, more_rules_are_never_earlier,
};
pub use order::{agreement, is_above, lpo_greater};
pub use precedence::Precedence;
pub use search::{is_listed, search_lpo, search_lpo_from};
