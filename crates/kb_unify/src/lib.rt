//! Unification of first-order terms.
#![tactic(auto)]

mod clashing;
mod extent;
mod fault;
mod reading;
mod table;
mod unifier;

pub use extent::Extent;
pub use fault::UnifyFault;
pub use unifier::{unifiers_alike, unify};
