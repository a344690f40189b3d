//! Goals and terms behind an answer, as texts, and the texts of what is said of them.
#![tactic(auto)]

mod decided;
mod deciding;
mod front;
mod goals;
mod laws;
mod simplifying;
mod terms;

pub use decided::decide_text;
pub use deciding::{decide_goals, rules_of};
pub use goals::read_goals;
pub use laws::simplified_terms_are_right;
pub use simplifying::{Simplified, simplify, simplify_terms, simplify_text};
pub use terms::read_terms;
