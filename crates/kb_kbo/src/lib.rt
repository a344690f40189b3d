//! Knuth-Bendix orders: weights with a precedence, their laws and their search.
#![tactic(auto)]

mod kbo;
mod known;
mod laws;
mod level;
mod needs;
mod order;
mod search;

pub use kbo::{Kbo, MAX_WEIGHT, MIN_WEIGHT};
pub use laws::{kbo_halts, kbo_is_rewrite_order, kbo_is_strict_order};
pub use order::kbo_greater;
pub use search::{search_kbo, search_kbo_from};
