//! Linear interpretations over the natural numbers and their search.
#![tactic(auto)]

mod form;
mod interp;
mod numbers;
mod order;
mod search;

pub use interp::Interp;
pub use order::linear_greater;
pub use search::{search_linear, search_linear_from};
