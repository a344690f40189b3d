//! The table of nodes, and the jobs on them.
#![tactic(auto)]

mod fault;
mod job;
mod node;
mod sides;
mod table;
mod view;

pub use fault::NodeFault;
pub use job::{Deduced, Fact, Job, LimitCause};
pub use node::{LabelKind, NodeId, Role};
pub use table::NodeTable;
pub use view::{NodeIds, RuleRefs, View};
