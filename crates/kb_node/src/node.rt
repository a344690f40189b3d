// Nodes: what is kept of one, and its six labels.
ghost use Rattle.std.specs.Prelude.{◌≡◌};

use kb_label::Labels;
use kb_term::Origin;
use std::alloc::Global;
use std::mem;

/// A node, by its number.
#[derive(Clone, Copy, Debug, PartialEq, Eq)]
pub struct NodeId(pub u16);

/// What a process has a node as.
#[derive(Clone, Copy, Debug, PartialEq, Eq)]
pub enum Role {
    /// An equation.
    Equation,
    /// A rule from side 0 to side 1.
    Rule0,
    /// A rule from side 1 to side 0.
    Rule1,
}

/// The six labels of a node.
#[derive(Clone, Copy, Debug, PartialEq, Eq)]
pub enum LabelKind {
    /// The processes that have the rule from side 0 to side 1.
    R0,
    /// The processes that have the rule from side 1 to side 0.
    R1,
    /// The processes that have the equation.
    E,
    /// The processes that have the constraint from side 0 to side 1.
    C0,
    /// The processes that have the constraint from side 1 to side 0.
    C1,
    /// The processes that can't orient the equation.
    X,
}

/// What a table keeps of a node beside the cells of its pair: how the pair was made first, and for each kind the label of the
/// processes that have it so.
#[derive(Drop)]
pub struct Entry<L> {
    pub origin: Origin,
    pub rule0: L,
    pub rule1: L,
    pub equation: L,
    pub constraint0: L,
    pub constraint1: L,
    pub refused: L,
}

impl<L> Entry<L> {
    ghost use Rattle.kb_term.specs.Pair.{Pair};
    ghost use Rattle.kb_node.specs.Labelled.{label_in, with_label};
    ghost use Rattle.kb_node.specs.Stored.{node_of};

    /// The label of this kind.
    pub fn label(&self, kind: LabelKind) -> &L
        ensures { (e : Pair) → result.now ≡ label_in (node_of e self.now) kind }
    {
        match kind {
            LabelKind::R0 => &self.rule0,
            LabelKind::R1 => &self.rule1,
            LabelKind::E => &self.equation,
            LabelKind::C0 => &self.constraint0,
            LabelKind::C1 => &self.constraint1,
            LabelKind::X => &self.refused,
        }
    }

    /// Puts a label in the place of the one of this kind, which it gives.
    pub fn set_label(&mut self, kind: LabelKind, label: L) -> L
        ensures old { (e : Pair) → result ≡ label_in (node_of e self.old) kind }
        ensures new { (e : Pair) → node_of e self.new ≡ with_label (node_of e self.old) kind label }
    {
        match kind {
            LabelKind::R0 => mem::replace(&mut self.rule0, label),
            LabelKind::R1 => mem::replace(&mut self.rule1, label),
            LabelKind::E => mem::replace(&mut self.equation, label),
            LabelKind::C0 => mem::replace(&mut self.constraint0, label),
            LabelKind::C1 => mem::replace(&mut self.constraint1, label),
            LabelKind::X => mem::replace(&mut self.refused, label),
        }
    }
}

impl<L: Labels> Entry<L> {
    ghost use Rattle.std.specs.Prelude.{◌≡◌, []};
    ghost use Rattle.kb_term.specs.Pair.{Pair};
    ghost use Rattle.kb_node.specs.Labelled.{label_in};
    ghost use Rattle.kb_node.specs.Stored.{node_of};
    ghost use Rattle.kb_node.specs.declared.node.LabelKind.{LabelKind};

    /// A node that no process has.
    pub(crate) fn unlabelled(alloc: Global, origin: Origin) -> Entry<L>
        ensures origin { result.origin ≡ origin }
        ensures unlabelled { (e : Pair) (kind : LabelKind) (log : L.Log) → L.names_under log (label_in (node_of e result) kind) ≡ [] }
    {
        Entry {
            origin,
            rule0: L::new(alloc),
            rule1: L::new(alloc),
            equation: L::new(alloc),
            constraint0: L::new(alloc),
            constraint1: L::new(alloc),
            refused: L::new(alloc),
        }
    }
}
