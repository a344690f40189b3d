//! Reduced systems: the rules of a good answer made canonical, with the steps that show it.
#![tactic(auto)]

mod composing;
mod reducing;
mod reduction;
mod thinning;

pub use reducing::reduce;
pub use reduction::{Reduction, Why};
