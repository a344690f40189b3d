// The jobs on nodes, and what jobs find.
use crate::node::NodeId;
use kb_label::{Process, Reason};
use kb_term::{Found, Pair, Position, RuleRef};

/// A job that a worker may take.
#[derive(Clone, Copy, Debug, PartialEq, Eq)]
pub enum Job {
    /// Rewrite the node by the rules of the process.
    Reduce(Process, NodeId),
    /// Make an equation of the process a rule.
    Orient(Process, NodeId),
    /// Overlap two rules of the process.
    Overlap(Process, RuleRef, RuleRef),
    /// See whether the process is complete.
    Close(Process),
}

/// What is known of one side of a node and one rule.
#[derive(Clone, Copy, Debug, PartialEq, Eq)]
pub struct Fact {
    pub node: NodeId,
    pub side: u8,
    pub rule: RuleRef,
    pub found: Found,
}

/// The canonical pair of an overlap of two rules at a position.
#[derive(Clone, Drop)]
pub struct Deduced {
    pub outer: RuleRef,
    pub inner: RuleRef,
    pub position: Position,
    pub pair: Pair,
}

/// Why a job gives up: the reason, and, of a job that rewrites a node, the side, the rule and the kind of the redex.
#[derive(Clone, Copy, Debug, PartialEq, Eq)]
pub struct LimitCause {
    pub redex: Option<(u8, RuleRef, Found)>,
    pub reason: Reason,
}
