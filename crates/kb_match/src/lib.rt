//! Matching of first-order terms.
#![tactic(auto)]

mod fitting;
mod laws;
mod matcher;

pub use fitting::fits;
pub use laws::{matches_are_one, matching_terms_fit};
pub use matcher::{match_term, matches};
