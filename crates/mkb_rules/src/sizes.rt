// What processes pay for the nodes that they have.
ghost use Rattle.std.specs.Prelude.{◌≡◌, ◌+◌, ◌<◌, ◌&&◌, length, All, IfSome};
ghost use Rattle.kb_label.specs.Names.{has};
ghost use Rattle.kb_node.specs.Labelled.{with_label_at};
ghost use Rattle.mkb_rules.specs.Parts.{plain_nodes};
ghost use Rattle.mkb_model.specs.Plain.{label_at};
ghost use Rattle.mkb_rules.specs.Sizes.{counted_sizes, size_by, size_if, size_at, is_open_kind, is_rule_kind, open_share_at, rule_share_at, AreSizesOf};

use kb_label::{Labels, ListLabels, NameLog, Process};
use kb_node::{LabelKind, NodeId, NodeTable};
use mkb_model::Selection;

/// What a process pays for its equations and its constraints, and for its rules: the sizes of the nodes, each as often as the
/// process has it so.
#[derive(Clone, Copy)]
pub(crate) struct Sizes {
    pub(crate) process: Process,
    pub(crate) open_sizes: u32,
    pub(crate) rule_sizes: u32,
}

impl Sizes {
    /// What the process costs by the selection; none where the number is too great for its type.
    pub(crate) fn cost(&self, selection: Selection) -> Option<u32>
        ensures { IfSome result (λ c. c ≡ self.now.open_sizes + counted_sizes selection self.now.rule_sizes) }
    {
        match selection {
            Selection::Stated => Some(self.open_sizes),
            Selection::Size => self.open_sizes.checked_add(self.rule_sizes),
        }
    }

    /// The same for another process.
    pub(crate) fn renamed(&self, p: &Process) -> Sizes
        ensures { result ≡ record self.now { process = p.now } }
    {
        Sizes {
            process: *p,
            ..*self
        }
    }

    /// What the process pays after a label of this kind of a node of this size has changed; none where the number is too
    /// great for its type.
    pub(crate) fn moved(&self, kind: LabelKind, size: u32, had: bool, has: bool) -> Option<Sizes>
        ensures process { IfSome result (λ s. s.process ≡ self.now.process) }
        ensures open { IfSome result (λ s. s.open_sizes + size_if (is_open_kind kind && had) size ≡ self.now.open_sizes + size_if (is_open_kind kind && has) size) }
        ensures rules { IfSome result (λ s. s.rule_sizes + size_if (is_rule_kind kind && had) size ≡ self.now.rule_sizes + size_if (is_rule_kind kind && has) size) }
    {
        match kind {
            LabelKind::E | LabelKind::C0 | LabelKind::C1 => Some(Sizes {
                process: self.process,
                open_sizes: moved_sum(self.open_sizes, size, had, has)?,
                rule_sizes: self.rule_sizes,
            }),
            LabelKind::R0 | LabelKind::R1 => Some(Sizes {
                process: self.process,
                open_sizes: self.open_sizes,
                rule_sizes: moved_sum(self.rule_sizes, size, had, has)?,
            }),
            LabelKind::X => Some(*self),
        }
    }
}

// The sum without the size where it was in it, and with it where it is.
fn moved_sum(sum: u32, size: u32, had: bool, has: bool) -> Option<u32>
    ensures { IfSome result (λ r. r + size_if had size ≡ sum + size_if has size) }
{
    let rest = if had { sum.checked_sub(size)? } else { sum };
    if has {
        rest.checked_add(size)
    } else {
        Some(rest)
    }
}

/// What the process pays; none where a number is too great for its type. It goes over all nodes, and takes no memory.
pub(crate) fn sizes_of(table: &NodeTable<ListLabels>, log: &NameLog, p: &Process) -> Option<Sizes>
    ensures process { IfSome result (λ s. s.process ≡ p.now) }
    ensures right { IfSome result (AreSizesOf (plain_nodes table.now)) }
{
    let mut sizes = Sizes {
        process: *p,
        open_sizes: 0,
        rule_sizes: 0,
    };
    for n in 0..table.len() {
        sizes = sizes.with_node(table, log, NodeId(n as u16))?;
    }
    Some(sizes)
}

impl Sizes {
    // With what the process pays for one node more.
    fn with_node(&self, table: &NodeTable<ListLabels>, log: &NameLog, n: NodeId) -> Option<Sizes>
        requires { n.0 < length table.now }
        ensures process { IfSome result (λ s. s.process ≡ self.now.process) }
        ensures open { IfSome result (λ s. s.open_sizes ≡ self.now.open_sizes + open_share_at (plain_nodes table.now) n.0 self.now.process) }
        ensures rules { IfSome result (λ s. s.rule_sizes ≡ self.now.rule_sizes + rule_share_at (plain_nodes table.now) n.0 self.now.process) }
    {
        let as_equation = self.with_label(table, log, n, LabelKind::E)?;
        let forth = as_equation.with_label(table, log, n, LabelKind::C0)?;
        let back = forth.with_label(table, log, n, LabelKind::C1)?;
        let as_rule = back.with_label(table, log, n, LabelKind::R0)?;
        as_rule.with_label(table, log, n, LabelKind::R1)
    }

    // With what the process pays where the node's label of this kind has it.
    fn with_label(
        &self,
        table: &NodeTable<ListLabels>,
        log: &NameLog,
        n: NodeId,
        kind: LabelKind,
    ) -> Option<Sizes>
        requires { n.0 < length table.now }
        ensures process { IfSome result (λ s. s.process ≡ self.now.process) }
        ensures open { IfSome result (λ s. s.open_sizes ≡ self.now.open_sizes + size_by (is_open_kind kind) kind (plain_nodes table.now) n.0 self.now.process) }
        ensures rules { IfSome result (λ s. s.rule_sizes ≡ self.now.rule_sizes + size_by (is_rule_kind kind) kind (plain_nodes table.now) n.0 self.now.process) }
    {
        let has = table.label(n, kind).has(log, &self.process);
        self.moved(kind, table.size(n), false, has)
    }
}
