// The table of nodes, with what is kept beside it.
ghost use Rattle.std.specs.Prelude.{◌≡◌, ℕ, List, [], Some, ◌+◌, ◌<◌, ◌≤◌, ◌↔◌, length, take, set, get_or, true, slice_get, option_map, if◌then◌else◌, All, IfOk, IfSome, IsTrue, OnErr, OnOk};
ghost use Rattle.kb_node.specs.Labelled.{label_in, with_label_at, HasPair, LacksPair, AddsNode};
ghost use Rattle.kb_label.specs.Names.{relabel, united, IsTakenBack, Name};
ghost use Rattle.mkb_rules.specs.Parts.{plain_nodes};
ghost use Rattle.mkb_model.specs.Effects.{with_label};
ghost use Rattle.mkb_model.specs.Plain.{label_at};
ghost use Rattle.mkb_rules.specs.Accounts.{DiffersFor, IsAccountOf};
ghost use Rattle.mkb_rules.specs.Constrained.{is_constraint_kind, AreConstrained};
ghost use Rattle.mkb_rules.specs.Roles.{AreRolesOf};
ghost use Rattle.mkb_rules.specs.SetAside.{AreSetAside};
ghost use Rattle.mkb_rules.specs.Sizes.{is_dead_at, AreAlive, AreSizesOf};

use crate::account::{Account, Change, account_of, follow, follow_new};
use crate::marks::Marks;
use crate::role_row::RoleRow;
use crate::set_aside::{SetAside, put_all_in};
use crate::sizes::Sizes;
use kb_label::{Labels, ListLabels, MAX_BITS, NameLog, Process};
use kb_node::{LabelKind, NodeFault, NodeId, NodeTable};
use kb_term::{MAX_NODES, Origin, Pair};
use std::alloc::{AllocError, Global};
use std::marker::Model;
use std::mem::replace;

/// The table of nodes. Contracts see the nodes alone.
///
/// Beside it stands which nodes no process has as an equation or as a rule, and which none has as a constraint, with lists of the others, and an account
/// for each process of what it pays for its nodes and how it has them; all follow each label that is put. Where memory is short they say less, and nothing
/// false.
#[derive(Drop)]
pub(crate) struct Tracked {
    table: NodeTable<ListLabels>,
    used: Marks,
    constrained: Marks,
    accounts: Vec<Account>,
}

impl Model for Tracked {
    ghost use Rattle.std.specs.Prelude.{List, All};
    ghost use Rattle.std.specs.Coded.{codes};
    ghost use Rattle.kb_term.specs.Coding.{coded_pair};
    ghost use Rattle.kb_label.specs.Names.{Name};
    ghost use Rattle.kb_node.specs.Labelled.{Node};
    ghost use Rattle.mkb_rules.specs.Parts.{plain_nodes};
    ghost use Rattle.mkb_rules.specs.Accounts.{IsAccountOf};
    ghost use Rattle.mkb_rules.specs.Constrained.{AreConstraintsMarked};
    ghost use Rattle.mkb_rules.specs.Sizes.{AreMarked};

    ghost Value = { List (Node (List Name)) };

    ghost coded = { Prim.hlevel (codes, coded_pair) };

    ghost view = { λ t. t.table };

    ghost invariant = { λ t. AreMarked (plain_nodes t.table) t.used × All (IsAccountOf (plain_nodes t.table)) t.accounts.items × AreConstraintsMarked (plain_nodes t.table) t.constrained };
}

impl Tracked {
    /// No node. It takes no memory.
    pub(crate) fn new(alloc: Global) -> Tracked
        ensures { result ≡ [] }
    {
        Tracked {
            table: NodeTable::new(alloc),
            used: Marks::new(alloc),
            constrained: Marks::new(alloc),
            accounts: Vec::new(alloc),
        }
    }

    /// The table of nodes.
    pub(crate) fn table(&self) -> &NodeTable<ListLabels>
        ensures { result.now ≡ self.now }
    {
        &self.table
    }

    /// How many nodes there are, at most 4,096.
    pub(crate) fn len(&self) -> u32
        ensures count { result ≡ length self.now }
        ensures most { result ≤ MAX_NODES }
    {
        self.table.len()
    }

    /// Whether no process has the node as an equation or as a rule.
    pub(crate) fn is_dead(&self, log: &NameLog, n: NodeId) -> bool
        requires { n.0 < length self.now }
        ensures { result ≡ is_dead_at (plain_nodes self.now) n.0 }
    {
        !self.used.is_used(n) || self.table.is_dead(log, n)
    }

    /// Puts a label in the place of the one that changes, which it gives. It takes no memory.
    pub(crate) fn set_label(
        &mut self,
        log: &NameLog,
        change: &Change,
        label: ListLabels,
    ) -> ListLabels
        requires there { change.now.node.0 < length self.old }
        requires differs { DiffersFor change.now.concerned (label_at (plain_nodes self.old) change.now.node.0 change.now.kind) label }
        ensures old { option_map (λ node. label_in node change.now.kind) (slice_get self.old change.now.node.0) ≡ Some result }
        ensures new { self.new ≡ with_label_at self.old change.now.node.0 change.now.kind label }
    {
        follow(&mut self.accounts, &self.table, change, &label);
        let replaced = self.table.set_label(change.node, change.kind, label);
        let is_dead = self.table.is_dead(log, change.node);
        self.used.set(change.node, !is_dead);
        mark_constraint(&mut self.constrained, change.node, change.kind);
        replaced
    }

    /// Puts a label back in the place of the node's label of this kind. It takes no memory.
    pub(crate) fn put_back(&mut self, n: NodeId, kind: LabelKind, label: ListLabels)
        requires { n.0 < length self.old }
        ensures new { self.new ≡ with_label_at self.old n.0 kind label }
    {
        self.accounts.clear();
        self.used.set(n, true);
        mark_constraint(&mut self.constrained, n, kind);
        let _replaced = self.table.set_label(n, kind, label);
    }

    /// Puts the two children of a process in its place in a label of the node, where it stands there. No account is kept from here on.
    ///
    /// # Errors
    ///
    /// Want of memory; the nodes are then as before.
    pub(crate) fn relabel(
        &mut self,
        log: &NameLog,
        n: NodeId,
        kind: LabelKind,
        p: &Process,
    ) -> Result<(), AllocError>
        requires there { n.0 < length self.old }
        requires short { length p.now < MAX_BITS }
        ensures ok { OnOk result (plain_nodes self.new ≡ with_label n.0 kind (relabel p.now (label_at (plain_nodes self.old) n.0 kind)) (plain_nodes self.old)) }
        ensures err { OnErr result (plain_nodes self.new ≡ plain_nodes self.old) }
        ensures back { IsTakenBack p.now (label_at (plain_nodes self.old) n.0 kind) }
        ensures count { length self.new ≡ length self.old }
    {
        let empty = ListLabels::new(*self.accounts.allocator());
        let mut label = self.table.set_label(n, kind, empty);
        let outcome = label.relabel(p);
        let _empty = self.table.set_label(n, kind, label);
        self.accounts.clear();
        let is_dead = self.table.is_dead(log, n);
        self.used.set(n, !is_dead);
        mark_constraint(&mut self.constrained, n, kind);
        outcome
    }

    /// Puts a process of fewer than 64 bits in the place of its two children in a label of the node, where both stand there. It takes
    /// no memory.
    pub(crate) fn unite(&mut self, n: NodeId, kind: LabelKind, p: &Process)
        requires { n.0 < length self.old }
        ensures new { plain_nodes self.new ≡ with_label n.0 kind (united p.now (label_at (plain_nodes self.old) n.0 kind)) (plain_nodes self.old) }
        ensures count { length self.new ≡ length self.old }
    {
        self.accounts.clear();
        self.used.set(n, true);
        mark_constraint(&mut self.constrained, n, kind);
        let empty = ListLabels::new(*self.accounts.allocator());
        let mut label = self.table.set_label(n, kind, empty);
        label.unite(p);
        let _empty = self.table.set_label(n, kind, label);
    }

    /// Keeps the first nodes alone. It takes no memory.
    pub(crate) fn truncate(&mut self, len: u32)
        requires { len ≤ length self.old }
        ensures { self.new ≡ take len self.old }
    {
        self.accounts.clear();
        self.table.truncate(len);
    }

    /// The node that has the pair, which keeps its origin; else one more node, without labels.
    ///
    /// # Errors
    ///
    /// `Full` where the pair is new and the table has 4,096 nodes, and want of memory; the table is then as before.
    pub(crate) fn find_or_add(&mut self, pair: Pair, origin: Origin) -> Result<NodeId, NodeFault>
        ensures present { (n : ℕ) → HasPair self.old n pair → (result ≡ Ok (record { 0 = n })) × (self.new ≡ self.old) }
        ensures added { LacksPair self.old pair → IfOk result (λ n. (n.0 ≡ length self.old) × AddsNode {K = List Name} (λ log l. l) self.old self.new pair origin) }
        ensures full { (result ≡ Err NodeFault.Full) ↔ (LacksPair self.old pair × (length self.old ≡ MAX_NODES)) }
        ensures err { OnErr result (self.new ≡ self.old) }
    {
        let count = self.table.len();
        let n = self.table.find_or_add(pair, origin)?;
        if count < self.table.len() {
            let new = NodeId(count as u16);
            self.used.push(new);
            self.constrained.push(new);
            follow_new(&mut self.accounts, new);
        }
        Ok(n)
    }

    /// The nodes that some process has as an equation or as a rule, in their order, and perhaps some that nobody has; none where
    /// that isn't kept. It takes constant time.
    pub(crate) fn alive(&self) -> Option<&[NodeId]>
        ensures { IfSome result (λ l. AreAlive (plain_nodes self.now) l.now) }
    {
        if self.used.len() != self.table.len() as usize {
            return None;
        }
        self.used.list()
    }

    /// The nodes in which some process has a constraint, in their order, and perhaps some in which nobody has one; none where that
    /// isn't kept. It takes constant time.
    pub(crate) fn constrained(&self) -> Option<&[NodeId]>
        ensures { IfSome result (λ l. AreConstrained (plain_nodes self.now) l.now) }
    {
        if self.constrained.len() != self.table.len() as usize {
            return None;
        }
        self.constrained.list()
    }

    /// Keeps an account for each living process, where memory allows.
    pub(crate) fn keep_accounts(&mut self, log: &NameLog)
        ensures { self.new ≡ self.old }
    {
        let living = log.processes();
        if self.accounts.len() == living.len() {
            return;
        }
        for i in 0..living.len() {
            if !keep_one(&mut self.accounts, &self.table, log, i, &living[i]) {
                return;
            }
        }
    }

    /// Sets the accounts aside for a fork of the process. None is kept from here on.
    pub(crate) fn set_aside(&mut self, p: &Process) -> SetAside
        requires { length p.now < MAX_BITS }
        ensures same { self.new ≡ self.old }
        ensures right { AreSetAside (plain_nodes self.old) p.now result }
    {
        let alloc = *self.accounts.allocator();
        let accounts = replace(&mut self.accounts, Vec::new(alloc));
        SetAside::for_fork_of(p, accounts)
    }

    /// These accounts are kept from here on.
    pub(crate) fn take_back(&mut self, accounts: Vec<Account>)
        requires { All (IsAccountOf (plain_nodes self.old)) accounts.items }
        ensures { self.new ≡ self.old }
    {
        self.accounts = accounts;
    }

    /// These accounts of others are kept too from here on.
    pub(crate) fn take_in(&mut self, others: Vec<Account>)
        requires { All (IsAccountOf (plain_nodes self.old)) others.items }
        ensures { self.new ≡ self.old }
    {
        let mut accounts = others;
        put_all_in(&mut accounts, &mut self.accounts);
        self.accounts = accounts;
    }

    // The account of the process, where it is kept at this place.
    fn account(&self, place: usize, p: &Process) -> Option<&Account>
        ensures process { IfSome result (λ a. a.now.sizes.process ≡ p.now) }
        ensures right { IfSome result (λ a. IsAccountOf (plain_nodes self.now) a.now) }
    {
        match self.accounts.get(place) {
            Some(account) if account.sizes.process == *p => Some(account),
            _ => None,
        }
    }

    /// What the process pays, where that is kept at this place.
    pub(crate) fn sizes(&self, place: usize, p: &Process) -> Option<&Sizes>
        ensures process { IfSome result (λ s. s.now.process ≡ p.now) }
        ensures right { IfSome result (λ s. AreSizesOf (plain_nodes self.now) s.now) }
    {
        match self.account(place, p) {
            Some(account) => Some(&account.sizes),
            None => None,
        }
    }

    /// How the process has each of the first nodes, where that is kept at this place.
    pub(crate) fn row(&self, place: usize, p: &Process) -> Option<&RoleRow>
        ensures { IfSome result (λ row. AreRolesOf (plain_nodes self.now) p.now row.now) }
    {
        match self.account(place, p) {
            Some(account) => Some(&account.roles),
            None => None,
        }
    }
}

// Notes that somebody may have a constraint in the node, where a label of this kind is one of constraints.
fn mark_constraint(constrained: &mut Marks, n: NodeId, kind: LabelKind)
    ensures { constrained.new ≡ (if is_constraint_kind kind then set constrained.old n.0 true else constrained.old) }
{
    match kind {
        LabelKind::C0 | LabelKind::C1 => constrained.set(n, true),
        LabelKind::R0 | LabelKind::R1 | LabelKind::E | LabelKind::X => {}
    }
}

// Keeps the account of the process at this place, unless it stands there; whether it does then.
fn keep_one(
    accounts: &mut Vec<Account>,
    table: &NodeTable<ListLabels>,
    log: &NameLog,
    place: usize,
    p: &Process,
) -> bool
    requires within { place ≤ length accounts.old.items }
    requires right { All (IsAccountOf (plain_nodes table.now)) accounts.old.items }
    ensures within { IsTrue result → place + 1 ≤ length accounts.new.items }
    ensures right { All (IsAccountOf (plain_nodes table.now)) accounts.new.items }
{
    match accounts.get(place) {
        Some(account) if account.sizes.process == *p => return true,
        _ => {}
    }
    match account_of(*accounts.allocator(), table, log, p) {
        Some(account) => accounts.insert(place, account).is_ok(),
        None => false,
    }
}
