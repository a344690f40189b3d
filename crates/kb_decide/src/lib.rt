//! Goals that a rewrite system decides: both sides are normalised, and their normal forms are compared.
#![tactic(auto)]

mod deciding;
mod decision;
mod laws;
mod normalising;
mod replaying;

pub use deciding::decide;
pub use decision::{Decision, Line, Reason};
pub use laws::{decisions_are_right, replayed_goals_are_proved};
pub use normalising::reason_of;
pub use replaying::replay_decision;
