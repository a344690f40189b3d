//! Labels that a fork doesn't touch.
#![tactic(auto)]

mod fork_log;
mod labels;
mod laws;
mod place_set;

pub use fork_log::ForkLog;
pub use labels::ForkLabels;
pub use laws::forks_relabel_each_label;
