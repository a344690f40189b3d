//! The agenda of a board, kept exact from commit to commit: it lists the processes that live and have not given up, and the
//! jobs that are due for them.
#![tactic(auto)]

mod due;
mod following;
mod laws;
mod looking;
mod opening;
mod roles;

pub use following::{Commit, follow};
pub use laws::{what_is_offered_first_is_the_first_job, who_sleeps_rests};
pub use opening::agenda_of;
pub use roles::{OpenTo, is_open_to, leads_to, roles_by};
