//! Redexes, the strategy that rewrites at the first of them, and normal forms.
#![tactic(auto)]

mod encompassing;
mod fingerprint;
mod laws;
mod normalising;
mod redex;
mod rewriting;
mod roots;
mod rule_list;
mod system;

pub use encompassing::found;
pub use laws::{no_redex_is_normal, normal_forms_are_one, strategy_rewrites};
pub use normalising::{MAX_STEPS, Normal, normal_form};
pub use redex::{Redex, first_redex};
pub use rewriting::step;
pub use rule_list::RuleList;
pub use system::System;
