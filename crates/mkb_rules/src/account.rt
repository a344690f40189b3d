// Accounts of processes: what is kept of them beside the nodes.
ghost use Rattle.std.specs.Prelude.{◌≡◌, ◌+◌, ◌<◌, ◌≤◌, ◌&&◌, ◌++◌, ◌∷◌, [], false, List, length, All, IfOk, IfSome, IsTrue};
ghost use Rattle.kb_label.specs.Names.{has, Name};
ghost use Rattle.kb_node.specs.Labelled.{with_label_at};
ghost use Rattle.mkb_rules.specs.Accounts.{renamed, DiffersFor, IsAccountOf, IsBare};
ghost use Rattle.mkb_model.specs.Plain.{label_at, PlainNode};
ghost use Rattle.mkb_rules.specs.Parts.{plain_nodes};
ghost use Rattle.mkb_rules.specs.Roles.{no_roles, roles_at, with_role_at, AreRolesOf};
ghost use Rattle.mkb_rules.specs.Sizes.{size_if, is_open_kind, is_rule_kind};

use crate::role_row::RoleRow;
use crate::roles::Roles;
use crate::sizes::{Sizes, sizes_of};
use kb_label::{Labels, ListLabels, NameLog, Process};
use kb_node::{LabelKind, NodeId, NodeTable};
use std::alloc::{AllocError, Global};

/// What a process pays for its nodes, and how it has each of the first ones.
#[derive(Drop)]
pub(crate) struct Account {
    pub(crate) sizes: Sizes,
    pub(crate) roles: RoleRow,
}

impl Account {
    /// The account follows a label of this kind of a node of this size, which named the process or didn't, and now does or
    /// doesn't. Whether it could: not where a number is too great for its type.
    fn follow(&mut self, n: NodeId, kind: LabelKind, size: u32, had: bool, has: bool) -> bool
        ensures process { self.new.sizes.process ≡ self.old.sizes.process }
        ensures open { IsTrue result → self.new.sizes.open_sizes + size_if (is_open_kind kind && had) size ≡ self.old.sizes.open_sizes + size_if (is_open_kind kind && has) size }
        ensures rules { IsTrue result → self.new.sizes.rule_sizes + size_if (is_rule_kind kind && had) size ≡ self.old.sizes.rule_sizes + size_if (is_rule_kind kind && has) size }
        ensures roles { IsTrue result → self.new.roles ≡ with_role_at self.old.roles n.0 kind has }
    {
        match self.sizes.moved(kind, size, had, has) {
            Some(sizes) => {
                self.sizes = sizes;
                self.roles.note(n, kind, has);
                true
            }
            None => false,
        }
    }

    /// The same account under the name of another process.
    pub(crate) fn renamed(self, p: &Process) -> Account
        ensures { result ≡ renamed p.now self }
    {
        let Account { sizes, roles } = self;
        Account {
            sizes: sizes.renamed(p),
            roles,
        }
    }

    /// A copy of the account under the name of another process.
    ///
    /// # Errors
    ///
    /// Want of memory.
    pub(crate) fn copy_for(&self, p: &Process) -> Result<Account, AllocError>
        ensures { IfOk result (λ a. a ≡ renamed p.now self.now) }
    {
        Ok(Account {
            sizes: self.sizes.renamed(p),
            roles: self.roles.copy()?,
        })
    }

    /// The account notes that nobody has the new node, the last one, where there is room for that.
    fn follow_new(&mut self, n: NodeId)
        ensures { (xs : List PlainNode) (x : PlainNode) → IsBare x → n.0 ≡ length xs → IsAccountOf xs self.old → IsAccountOf (xs ++ x ∷ []) self.new }
    {
        if self.roles.as_slice().len() == n.0 as usize {
            self.roles.push(n, Roles::none()).ok();
        }
    }
}

/// Whom a label that is put anew may name otherwise than the one before.
#[derive(Clone, Copy)]
pub(crate) enum Concerned<'a> {
    Anyone,
    Only(&'a ListLabels),
}

impl<'a> Concerned<'a> {
    // Whether the process may be concerned. Processes are asked for in their order, from place 0.
    fn may_be(&self, process: &Process, place: &mut usize) -> bool
        ensures { result ≡ false → (old new : List Name) → DiffersFor self.now old new → has old process.now ≡ has new process.now }
    {
        match self {
            Concerned::Anyone => true,
            Concerned::Only(names) => names.has_from(process, place),
        }
    }
}

/// Which label is put anew, and whom that concerns.
#[derive(Clone, Copy)]
pub(crate) struct Change<'a> {
    pub(crate) node: NodeId,
    pub(crate) kind: LabelKind,
    pub(crate) concerned: Concerned<'a>,
}

/// The accounts follow a label that is put into the table; where a number is too great, none is kept. They stand in the order of
/// names, so each is found in the labels without a search.
pub(crate) fn follow(
    accounts: &mut Vec<Account>,
    table: &NodeTable<ListLabels>,
    change: &Change,
    label: &ListLabels,
)
    requires there { change.now.node.0 < length table.now }
    requires differs { DiffersFor change.now.concerned (label_at (plain_nodes table.now) change.now.node.0 change.now.kind) label.now }
    requires right { All (IsAccountOf (plain_nodes table.now)) accounts.old.items }
    ensures { All (IsAccountOf (plain_nodes (with_label_at table.now change.now.node.0 change.now.kind label.now))) accounts.new.items }
{
    if matches!(change.kind, LabelKind::X) {
        return;
    }
    let size = table.size(change.node);
    let old = table.label(change.node, change.kind);
    let mut among = 0;
    let mut in_old = 0;
    let mut in_new = 0;
    for i in 0..accounts.len() {
        if !change
            .concerned
            .may_be(&accounts[i].sizes.process, &mut among)
        {
            continue;
        }
        let had = old.has_from(&accounts[i].sizes.process, &mut in_old);
        let has = label.has_from(&accounts[i].sizes.process, &mut in_new);
        if had == has {
            continue;
        }
        if !accounts[i].follow(change.node, change.kind, size, had, has) {
            accounts.clear();
            return;
        }
    }
}

/// The accounts note that nobody has the new node, the last one.
pub(crate) fn follow_new(accounts: &mut Vec<Account>, n: NodeId)
    ensures { (xs : List PlainNode) (x : PlainNode) → IsBare x → n.0 ≡ length xs → All (IsAccountOf xs) accounts.old.items → All (IsAccountOf (xs ++ x ∷ [])) accounts.new.items }
{
    for i in 0..accounts.len() {
        accounts[i].follow_new(n);
    }
}

/// The account of a process; none for want of memory, or where a number is too great for its type. It goes over all nodes.
pub(crate) fn account_of(
    alloc: Global,
    table: &NodeTable<ListLabels>,
    log: &NameLog,
    p: &Process,
) -> Option<Account>
    ensures process { IfSome result (λ a. a.sizes.process ≡ p.now) }
    ensures right { IfSome result (IsAccountOf (plain_nodes table.now)) }
{
    let sizes = sizes_of(table, log, p)?;
    let roles = roles_of(alloc, table, log, p).ok()?;
    Some(Account { sizes, roles })
}

// How the process has each node.
fn roles_of(
    alloc: Global,
    table: &NodeTable<ListLabels>,
    log: &NameLog,
    p: &Process,
) -> Result<RoleRow, AllocError>
    ensures { IfOk result (λ roles. AreRolesOf (plain_nodes table.now) p.now roles) }
{
    let mut roles = RoleRow::new(alloc);
    for n in 0..table.len() {
        let n = NodeId(n as u16);
        roles.push(n, roles_in(table, log, n, p))?;
    }
    Ok(roles)
}

// How the process has the node.
fn roles_in(table: &NodeTable<ListLabels>, log: &NameLog, n: NodeId, p: &Process) -> Roles
    requires { n.0 < length table.now }
    ensures { result ≡ roles_at (plain_nodes table.now) n.0 p.now }
{
    Roles {
        equation: table.label(n, LabelKind::E).has(log, p),
        first: table.label(n, LabelKind::R0).has(log, p),
        second: table.label(n, LabelKind::R1).has(log, p),
    }
}
