//! The board without flight and journal, and what commits do to it.
#![tactic(auto)]

mod account;
mod applied;
mod effects;
mod facts;
mod known;
mod labels;
mod marks;
mod nodes;
mod opening;
mod overlapped;
mod ranks;
mod role_row;
mod roles;
mod row;
mod set_aside;
mod sizes;
mod sleepers;
mod state;
mod tracked;

pub use applied::{Applied, Committed};
pub use known::KnownOn;
pub use roles::{Roles, push_held, push_rules};
pub use state::{Kept, State, is_ordered};
