//! Traces: how each pair of an answer follows from the equations and from earlier pairs.
#![tactic(auto)]

mod fault;
mod fields;
mod laws;
mod reached;
mod reading;
mod replaying;
mod right;
mod rule;
mod text;
mod trace;

pub use fault::TraceFault;
pub use laws::texts_are_of_one_trace;
pub use reached::trace_of;
pub use reading::read_trace;
pub use replaying::replay_trace;
pub use text::{position_text, trace_text};
pub use trace::{Step, Trace};
