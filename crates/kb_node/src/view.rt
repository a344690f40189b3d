// What one process sees of the nodes.
ghost use Rattle.std.specs.Prelude.{◌≡◌, [], ◌∷◌, ◌++◌, OnOk, OnErr};

use crate::node::NodeId;
use kb_term::RuleRef;
use std::alloc::{AllocError, Global};
use std::marker::Model;

/// A list of nodes, by their numbers.
#[derive(Drop)]
pub struct NodeIds {
    items: Vec<NodeId>,
}

impl Model for NodeIds {
    ghost use Rattle.std.specs.Prelude.{List};
    ghost use Rattle.kb_node.specs.declared.node.NodeId.{NodeId};

    ghost Value = { List NodeId };

    ghost view = { λ l. l.items.items };
}

impl NodeIds {
    pub(crate) fn new(alloc: Global) -> NodeIds
        ensures { result ≡ [] }
    {
        NodeIds {
            items: Vec::new(alloc),
        }
    }

    pub(crate) fn push(&mut self, node: NodeId) -> Result<(), AllocError>
        ensures ok { OnOk result (self.new ≡ self.old ++ node ∷ []) }
        ensures err { OnErr result (self.new ≡ self.old) }
    {
        self.items.push(node)?;
        Ok(())
    }

    /// The nodes in their order.
    pub fn items(&self) -> &[NodeId]
        ensures { result.now ≡ self.now }
    {
        self.items.as_slice()
    }
}

/// A list of rules.
#[derive(Drop)]
pub struct RuleRefs {
    items: Vec<RuleRef>,
}

impl Model for RuleRefs {
    ghost use Rattle.std.specs.Prelude.{List};
    ghost use Rattle.kb_term.specs.declared.origin.RuleRef.{RuleRef};

    ghost Value = { List RuleRef };

    ghost view = { λ l. l.items.items };
}

impl RuleRefs {
    pub(crate) fn new(alloc: Global) -> RuleRefs
        ensures { result ≡ [] }
    {
        RuleRefs {
            items: Vec::new(alloc),
        }
    }

    pub(crate) fn push(&mut self, rule: RuleRef) -> Result<(), AllocError>
        ensures ok { OnOk result (self.new ≡ self.old ++ rule ∷ []) }
        ensures err { OnErr result (self.new ≡ self.old) }
    {
        self.items.push(rule)?;
        Ok(())
    }

    /// The rules in their order.
    pub fn items(&self) -> &[RuleRef]
        ensures { result.now ≡ self.now }
    {
        self.items.as_slice()
    }
}

/// What one process sees of the nodes: its equations, its rules, and each rule that it ever had.
#[derive(Drop)]
pub struct View {
    /// By number.
    pub equations: NodeIds,
    /// By number, then direction.
    pub rules: RuleRefs,
    /// By number, then direction.
    pub constraints: RuleRefs,
}
