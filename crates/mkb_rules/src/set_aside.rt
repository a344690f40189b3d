// Accounts while a process forks.
ghost use Rattle.std.specs.Prelude.{◌≡◌, ◌<◌, ◌≤◌, Bool, List, length, map, get_or, All, IfErr, IfOk, IfSome, IsTrue};
ghost use Rattle.kb_label.specs.Names.{child};
ghost use Rattle.mkb_model.specs.Plain.{PlainNode};
ghost use Rattle.mkb_model.specs.Effects.{forked_node};
ghost use Rattle.mkb_rules.specs.Accounts.{is_apart, renamed, HasChildren, InheritNodes, IsAccountOf};
ghost use Rattle.mkb_rules.specs.SetAside.{AreHandedOn, AreSetAside};

use crate::account::Account;
use kb_label::{MAX_BITS, Process};
use std::alloc::Global;

/// Accounts that are set aside while a process forks: its own, where it is kept, and those of all other processes but its
/// children.
#[derive(Drop)]
pub(crate) struct SetAside {
    own: Option<Account>,
    others: Vec<Account>,
}

/// Accounts after a fork: those of the children of the process that forked, as far as they are kept, and those of all others.
#[derive(Drop)]
pub(crate) struct HandedOn {
    pub(crate) children: Vec<Account>,
    pub(crate) others: Vec<Account>,
}

impl SetAside {
    /// Sets these accounts aside for a fork of the process.
    pub(crate) fn for_fork_of(p: &Process, accounts: Vec<Account>) -> SetAside
        requires { length p.now < MAX_BITS }
        ensures { (xs : List PlainNode) → All (IsAccountOf xs) accounts.items → AreSetAside xs p.now result }
    {
        let mut others = accounts;
        let own = taken_out(&mut others, p);
        let (left, right) = (p.child(false), p.child(true));
        others.retain(|account| is_apart(&account.sizes.process, p, &left, &right));
        SetAside { own, others }
    }

    /// The accounts after the fork; among them, where the children stand in each label in which the process stood and in no other,
    /// and where memory allows, those of the children.
    pub(crate) fn after_fork_of(
        self,
        alloc: Global,
        p: &Process,
        children_inherit: bool,
    ) -> HandedOn
        requires { length p.now < MAX_BITS }
        ensures { (xs : List PlainNode) → AreSetAside xs p.now self → (IsTrue children_inherit → InheritNodes p.now xs) → AreHandedOn (map (forked_node p.now) xs) p.now result }
    {
        let SetAside { own, others } = self;
        let mut children = Vec::new(alloc);
        match own {
            Some(own) if children_inherit => {
                hand_on(&mut children, own, p);
                HandedOn { children, others }
            }
            _ => HandedOn { children, others },
        }
    }
}

/// Puts each of the accounts at its place among others, unless one of its process stands there or memory is wanting.
pub(crate) fn put_all_in(others: &mut Vec<Account>, accounts: &mut Vec<Account>)
    ensures { (xs : List PlainNode) → All (IsAccountOf xs) accounts.old.items → All (IsAccountOf xs) others.old.items → All (IsAccountOf xs) others.new.items }
{
    while let Some(account) = accounts.pop() {
        put_in(others, account);
    }
}

// Whether the process is neither p nor one of these children of it. Its length mostly tells.
fn is_apart(q: &Process, p: &Process, left: &Process, right: &Process) -> bool
    requires { HasChildren p.now left.now right.now }
    ensures { result ≡ is_apart p.now q.now }
{
    if q.len() < p.len() {
        return true;
    }
    if q.len() > left.len() {
        return true;
    }
    q != p && (q != left && q != right)
}

// Takes the account of the process out, where it is kept.
fn taken_out(accounts: &mut Vec<Account>, p: &Process) -> Option<Account>
    ensures own { (xs : List PlainNode) → All (IsAccountOf xs) accounts.old.items → IfSome result (λ a. (a.sizes.process ≡ p.now) × IsAccountOf xs a) }
    ensures others { (xs : List PlainNode) → All (IsAccountOf xs) accounts.old.items → All (IsAccountOf xs) accounts.new.items }
{
    match place_of(accounts, p) {
        Ok(place) => Some(accounts.remove(place)),
        Err(_) => None,
    }
}

// Puts two accounts under the names of the children of the process, where memory allows.
fn hand_on(accounts: &mut Vec<Account>, own: Account, p: &Process)
    requires { length p.now < MAX_BITS }
    ensures { (xs : List PlainNode) → ((bit : Bool) → IsAccountOf xs (renamed (child p.now bit) own)) → All (IsAccountOf xs) accounts.old.items → All (IsAccountOf xs) accounts.new.items }
{
    let copy = own.copy_for(&p.child(true));
    put_in(accounts, own.renamed(&p.child(false)));
    if let Ok(copy) = copy {
        put_in(accounts, copy);
    }
}

// Puts the account at its place in the order, unless one of its process stands there or memory is wanting.
fn put_in(accounts: &mut Vec<Account>, account: Account)
    ensures { (xs : List PlainNode) → IsAccountOf xs account → All (IsAccountOf xs) accounts.old.items → All (IsAccountOf xs) accounts.new.items }
{
    if let Err(place) = place_of(accounts, &account.sizes.process) {
        accounts.insert(place, account).ok();
    }
}

// Where the account of the process stands, or where it would have to be put.
fn place_of(accounts: &[Account], p: &Process) -> Result<usize, usize>
    ensures found { IfOk result (λ i. (i < length accounts.now) × ((a : Account) → (get_or accounts.now i a).sizes.process ≡ p.now)) }
    ensures within { IfErr result (λ i. i ≤ length accounts.now) }
{
    accounts.binary_search_by_key(p, |account| account.sizes.process)
}
