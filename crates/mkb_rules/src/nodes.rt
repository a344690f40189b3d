// Nodes whose last changes can be taken back.
ghost use Rattle.std.specs.Prelude.{◌≡◌, ◌<◌, ◌≤◌, ◌↔◌, ℕ, [], Bool, Some, true, false, length, All, IsFalse, OnOk, OnErr, IfOk, IfSome};
ghost use Rattle.kb_term.specs.Pair.{Pair as CanonicalPair};
ghost use Rattle.mkb_model.specs.Plain.{label_at, pair_in};
ghost use Rattle.mkb_model.specs.Effects.{with_label, with_node, node_of, is_present, most_nodes, gains as with_gain, loses as with_loss, gains_equation as with_equation, gains_rule as with_rule};
ghost use Rattle.kb_label.specs.Names.{child, has, minus, relabel};
ghost use Rattle.mkb_rules.specs.Parts.{plain_nodes};
ghost use Rattle.mkb_rules.specs.Accounts.{DiffersFor, IsAccountOf};
ghost use Rattle.mkb_rules.specs.Constrained.{AreConstrained};
ghost use Rattle.mkb_rules.specs.Nodes.{put_back, put_one_back};
ghost use Rattle.mkb_rules.specs.Roles.{AreRolesOf};
ghost use Rattle.mkb_rules.specs.SetAside.{AreSetAside};
ghost use Rattle.mkb_rules.specs.Sizes.{is_dead_at, AreAlive, AreSizesOf};

use crate::account::{Account, Change, Concerned};
use crate::effects::label::rule_kind;
use crate::labels::{copy_of, joined};
use crate::role_row::RoleRow;
use crate::set_aside::SetAside;
use crate::sizes::Sizes;
use crate::tracked::Tracked;
use kb_label::{Labels, ListLabels, MAX_BITS, NameLog, Process, WORD_BITS};
use kb_node::{LabelKind, NodeFault, NodeId, NodeTable};
use kb_term::{Origin, Pair, RuleRef};
use std::alloc::{AllocError, Global};
use std::marker::Model;

/// How a label was before it changed: another one, or with a process in the place of its two children.
#[derive(Drop)]
enum Former {
    Label(ListLabels),
    Forked(Process),
}

/// A label that changed, and how it was before.
#[derive(Drop)]
struct Replaced {
    node: NodeId,
    kind: LabelKind,
    former: Former,
}

/// The table of nodes, with what was replaced in it since changes were last kept. Contracts see the nodes as they are
/// and as they were then.
#[derive(Drop)]
pub(crate) struct Nodes {
    table: Tracked,
    kept: u32,
    replaced: Vec<Replaced>,
}

impl Model for Nodes {
    ghost use Rattle.std.specs.Prelude.{take, All, length, ◌≤◌, ◌<◌};
    ghost use Rattle.std.specs.Coded.{codes};
    ghost use Rattle.kb_term.specs.Coding.{coded_pair};
    ghost use Rattle.mkb_rules.specs.declared.nodes.Replaced.{Replaced};
    ghost use Rattle.mkb_rules.specs.Parts.{plain_nodes};
    ghost use Rattle.mkb_rules.specs.Nodes.{Changed, put_back};

    ghost Value = { Changed };

    ghost coded = { Prim.hlevel (codes, coded_pair) };

    ghost view = { λ t. record { now = plain_nodes t.table; before = take t.kept (put_back t.replaced.items (plain_nodes t.table)) } };

    ghost invariant = { λ t. (t.kept ≤ length t.table) × All (λ (r : Replaced). r.node.0 < length t.table) t.replaced.items };
}

impl Nodes {
    /// No node. It takes no memory.
    pub(crate) fn new(alloc: Global) -> Nodes
        ensures { result ≡ record { now = []; before = [] } }
    {
        Nodes {
            table: Tracked::new(alloc),
            kept: 0,
            replaced: Vec::new(alloc),
        }
    }

    /// The table of nodes.
    pub(crate) fn table(&self) -> &NodeTable<ListLabels>
        ensures { plain_nodes result.now ≡ self.now.now }
    {
        self.table.table()
    }

    /// Whether no process has the node as an equation or as a rule.
    pub(crate) fn is_dead(&self, log: &NameLog, n: NodeId) -> bool
        requires { n.0 < length self.now.now }
        ensures { result ≡ is_dead_at self.now.now n.0 }
    {
        self.table.is_dead(log, n)
    }

    /// The nodes that some process has as an equation or as a rule, in their order, and perhaps some that nobody has; none where
    /// that isn't kept.
    pub(crate) fn alive(&self) -> Option<&[NodeId]>
        ensures { IfSome result (λ l. AreAlive self.now.now l.now) }
    {
        self.table.alive()
    }

    /// The nodes in which some process has a constraint, in their order, and perhaps some in which nobody has one; none where that
    /// isn't kept.
    pub(crate) fn constrained(&self) -> Option<&[NodeId]>
        ensures { IfSome result (λ l. AreConstrained self.now.now l.now) }
    {
        self.table.constrained()
    }

    /// Keeps of each living process what it pays and how it has the nodes, where memory allows.
    pub(crate) fn keep_accounts(&mut self, log: &NameLog)
        ensures { self.new ≡ self.old }
    {
        self.table.keep_accounts(log);
    }

    /// Sets what is kept of this aside for a fork of the process. Nothing is kept from here on.
    pub(crate) fn set_aside(&mut self, p: &Process) -> SetAside
        requires { length p.now < MAX_BITS }
        ensures same { self.new ≡ self.old }
        ensures right { AreSetAside self.old.now p.now result }
    {
        self.table.set_aside(p)
    }

    /// These accounts are kept from here on.
    pub(crate) fn take_back(&mut self, accounts: Vec<Account>)
        requires { All (IsAccountOf self.old.now) accounts.items }
        ensures { self.new ≡ self.old }
    {
        self.table.take_back(accounts);
    }

    /// These accounts of others are kept too from here on.
    pub(crate) fn take_in(&mut self, others: Vec<Account>)
        requires { All (IsAccountOf self.old.now) others.items }
        ensures { self.new ≡ self.old }
    {
        self.table.take_in(others);
    }

    /// What the process pays, where that is kept at this place.
    pub(crate) fn sizes(&self, place: usize, p: &Process) -> Option<&Sizes>
        ensures process { IfSome result (λ s. s.now.process ≡ p.now) }
        ensures right { IfSome result (λ s. AreSizesOf self.now.now s.now) }
    {
        self.table.sizes(place, p)
    }

    /// How the process has each of the first nodes, where that is kept at this place.
    pub(crate) fn row(&self, place: usize, p: &Process) -> Option<&RoleRow>
        ensures { IfSome result (λ row. AreRolesOf self.now.now p.now row.now) }
    {
        self.table.row(place, p)
    }

    /// How many nodes there are.
    pub(crate) fn len(&self) -> u32
        ensures { result ≡ length self.now.now }
    {
        self.table.len()
    }

    /// There are at most 4,096 nodes. It runs nothing: the table keeps this.
    pub(crate) fn are_few(&self)
        ensures { length self.now.now ≤ most_nodes }
    {
        self.table.len();
    }

    /// No two nodes have one pair. It runs nothing: the table keeps this.
    pub(crate) fn are_distinct(&self)
        ensures { (n m : ℕ) (q : CanonicalPair) → pair_in self.now.now n ≡ Some q → pair_in self.now.now m ≡ Some q → n ≡ m }
    {
        self.table().len();
    }

    /// Keeps all changes: from here on they can't be taken back.
    pub(crate) fn keep(&mut self)
        ensures now { self.new.now ≡ self.old.now }
        ensures before { self.new.before ≡ self.old.now }
        ensures few { length self.new.now ≤ most_nodes }
    {
        self.kept = self.table.len();
        self.replaced.clear();
    }

    /// Takes back all changes since they were last kept. It takes no memory.
    pub(crate) fn roll_back(&mut self)
        ensures now { self.new.now ≡ self.old.before }
        ensures before { self.new.before ≡ self.old.before }
    {
        put_all_back(&mut self.table, &mut self.replaced);
        self.table.truncate(self.kept);
    }

    /// Puts a label in the place of the one that changes.
    pub(crate) fn set(
        &mut self,
        log: &NameLog,
        change: &Change,
        label: ListLabels,
    ) -> Result<(), AllocError>
        requires there { change.now.node.0 < length self.old.now }
        requires differs { DiffersFor change.now.concerned (label_at self.old.now change.now.node.0 change.now.kind) label }
        ensures ok { OnOk result (self.new.now ≡ with_label change.now.node.0 change.now.kind label self.old.now) }
        ensures before { self.new.before ≡ self.old.before }
        ensures err { OnErr result (self.new ≡ self.old) }
    {
        self.replaced.reserve(1)?;
        let label = self.table.set_label(log, change, label);
        self.replaced
            .push(Replaced {
                node: change.node,
                kind: change.kind,
                former: Former::Label(label),
            })
            .unwrap();
        Ok(())
    }

    /// Puts the two children of a process in its place in a label that names it and neither of them. No account is kept from here
    /// on.
    pub(crate) fn relabel(
        &mut self,
        log: &NameLog,
        n: NodeId,
        kind: LabelKind,
        p: &Process,
    ) -> Result<(), AllocError>
        requires short { length p.now < WORD_BITS }
        requires there { n.0 < length self.old.now }
        requires named { has (label_at self.old.now n.0 kind) p.now ≡ true }
        requires alone { (bit : Bool) → has (label_at self.old.now n.0 kind) (child p.now bit) ≡ false }
        ensures ok { OnOk result (self.new.now ≡ with_label n.0 kind (relabel p.now (label_at self.old.now n.0 kind)) self.old.now) }
        ensures before { self.new.before ≡ self.old.before }
        ensures err { OnErr result (self.new.now ≡ self.old.now) }
    {
        self.replaced.reserve(1)?;
        self.table.relabel(log, n, kind, p)?;
        self.replaced
            .push(Replaced {
                node: n,
                kind,
                former: Former::Forked(*p),
            })
            .unwrap();
        Ok(())
    }

    /// The node that has the pair; else one more node, of this origin and without labels.
    ///
    /// # Errors
    ///
    /// `Full` where the pair is new and there are 4,096 nodes, and want of memory.
    pub(crate) fn find_or_add(&mut self, pair: Pair, origin: Origin) -> Result<NodeId, NodeFault>
        ensures ok { OnOk result (self.new.now ≡ with_node pair origin self.old.now) }
        ensures node { IfOk result (λ n. n.0 ≡ node_of self.new.now pair) }
        ensures full { (result ≡ Err NodeFault.Full) ↔ (IsFalse (is_present self.old.now pair) × (length self.old.now ≡ most_nodes)) }
        ensures before { self.new.before ≡ self.old.before }
        ensures err { OnErr result (self.new ≡ self.old) }
    {
        self.table.find_or_add(pair, origin)
    }

    /// A label of a node gains these names.
    pub(crate) fn gains(
        &mut self,
        log: &NameLog,
        n: NodeId,
        kind: LabelKind,
        names: &ListLabels,
    ) -> Result<(), AllocError>
        requires { n.0 < length self.old.now }
        ensures ok { OnOk result (self.new.now ≡ with_gain n.0 kind names.now self.old.now) }
        ensures before { self.new.before ≡ self.old.before }
    {
        if self.label(n, kind).includes(names) {
            return Ok(());
        }
        let label = joined(self.allocator(), log, self.label(n, kind), names)?;
        let change = Change {
            node: n,
            kind,
            concerned: Concerned::Only(names),
        };
        self.set(log, &change, label)
    }

    /// A label of a node loses these names.
    pub(crate) fn loses(
        &mut self,
        log: &NameLog,
        n: NodeId,
        kind: LabelKind,
        names: &ListLabels,
    ) -> Result<(), AllocError>
        requires { n.0 < length self.old.now }
        ensures ok { OnOk result (self.new.now ≡ with_loss n.0 kind names.now self.old.now) }
        ensures before { self.new.before ≡ self.old.before }
    {
        if names.is_disjoint(self.label(n, kind)) {
            return Ok(());
        }
        let label = left(self.allocator(), log, self.label(n, kind), names)?;
        let change = Change {
            node: n,
            kind,
            concerned: Concerned::Only(names),
        };
        self.set(log, &change, label)
    }

    /// The names gain the node as an equation, but for those that have it as a rule.
    pub(crate) fn gains_equation(
        &mut self,
        log: &NameLog,
        n: NodeId,
        names: &ListLabels,
    ) -> Result<(), AllocError>
        requires { n.0 < length self.old.now }
        ensures ok { OnOk result (self.new.now ≡ with_equation n.0 names.now self.old.now) }
        ensures before { self.new.before ≡ self.old.before }
    {
        if self.label(n, LabelKind::R0).is_disjoint(names)
            && self.label(n, LabelKind::R1).is_disjoint(names)
        {
            return self.gains(log, n, LabelKind::E, names);
        }
        let mut free = left(self.allocator(), log, names, self.label(n, LabelKind::R0))?;
        free.minus(log, self.label(n, LabelKind::R1))?;
        self.gains(log, n, LabelKind::E, &free)
    }

    /// The names gain the node as a rule, and lose it as an equation. Where memory is wanting, the loss may be made.
    pub(crate) fn gains_rule(
        &mut self,
        log: &NameLog,
        rule: RuleRef,
        names: &ListLabels,
    ) -> Result<(), AllocError>
        requires { rule.node < length self.old.now }
        ensures ok { OnOk result (self.new.now ≡ with_rule rule names.now self.old.now) }
        ensures before { self.new.before ≡ self.old.before }
    {
        let n = NodeId(rule.node);
        self.loses(log, n, LabelKind::E, names)?;
        self.gains(log, n, rule_kind(rule.dir), names)
    }

    // The label of a node that has this kind.
    fn label(&self, n: NodeId, kind: LabelKind) -> &ListLabels
        requires { n.0 < length self.now.now }
        ensures { result.now ≡ label_at self.now.now n.0 kind }
    {
        self.table.table().label(n, kind)
    }

    /// The allocator of what is kept.
    pub(crate) fn allocator(&self) -> Global {
        *self.replaced.allocator()
    }
}

// The processes of the first label alone.
fn left(
    alloc: Global,
    log: &NameLog,
    one: &ListLabels,
    other: &ListLabels,
) -> Result<ListLabels, AllocError>
    ensures { IfOk result (λ l. l ≡ minus one.now other.now) }
{
    let mut label = copy_of(alloc, log, one)?;
    label.minus(log, other)?;
    Ok(label)
}

// Puts a label back as it was before it changed.
fn put_one_back(table: &mut Tracked, replaced: Replaced)
    requires { replaced.node.0 < length table.old }
    ensures nodes { plain_nodes table.new ≡ put_one_back replaced (plain_nodes table.old) }
    ensures count { length table.new ≡ length table.old }
{
    let Replaced { node, kind, former } = replaced;
    match former {
        Former::Label(label) => table.put_back(node, kind, label),
        Former::Forked(process) => table.unite(node, kind, &process),
    }
}

// Puts the replaced labels back, the last one first.
fn put_all_back(table: &mut Tracked, replaced: &mut Vec<Replaced>)
    requires { All (λ (r : Replaced). r.node.0 < length table.old) replaced.old.items }
    ensures nodes { plain_nodes table.new ≡ put_back replaced.old.items (plain_nodes table.old) }
    ensures none { replaced.new.items ≡ [] }
{
    while let Some(last) = replaced.pop() {
        put_one_back(table, last);
    }
}
