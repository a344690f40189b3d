// How a process has nodes, with lists of those that it has and of its rules, and how many equations it has.
ghost use Rattle.std.specs.Prelude.{◌≡◌, ◌<◌, ◌≤◌, ◌++◌, ◌∷◌, [], ℕ, Bool, List, length, filter, map, nat_lt, option_map, set, if◌then◌else◌, IfOk, IfSome, OnOk, OnErr};
ghost use Rattle.std.specs.List.{flat_map};
ghost use Rattle.kb_term.specs.declared.origin.RuleRef.{RuleRef as Reference};
ghost use Rattle.kb_node.specs.declared.node.NodeId.{NodeId as Numbered};
ghost use Rattle.mkb_model.specs.Plain.{directions, numbers_from};
ghost use Rattle.mkb_rules.specs.Roles.{but_for, equation_count, held_by, rules_below, rules_by, with_role_at, AreHeldBy};
ghost use Rattle.mkb_rules.specs.declared.roles.Roles.{Roles as Had};

use crate::roles::{Roles, push_held, push_rules};
use kb_node::{LabelKind, NodeId};
use kb_term::RuleRef;
use std::alloc::{AllocError, Global};
use std::marker::Model;

/// How a process has each of the first nodes, how many of them are its equations, and lists of those that it has and of its rules,
/// where they are kept. Contracts see how it has the nodes.
#[derive(Drop)]
pub(crate) struct RoleRow {
    roles: Vec<Roles>,
    equations: usize,
    held: Option<Vec<NodeId>>,
    rules: Option<Vec<RuleRef>>,
}

impl Model for RoleRow {
    ghost use Rattle.std.specs.Prelude.{◌≡◌, List, IfSome, map};
    ghost use Rattle.kb_node.specs.declared.node.NodeId.{NodeId};
    ghost use Rattle.mkb_rules.specs.declared.roles.Roles.{Roles};
    ghost use Rattle.mkb_rules.specs.Roles.{equation_count, held_by, rules_by};

    ghost Value = { List Roles };

    ghost view = { λ m. m.roles.items };

    ghost invariant = { λ m. IfSome m.held (λ l. map (λ (n : NodeId). n.0) l.items ≡ held_by m.roles.items) × IfSome m.rules (λ l. l.items ≡ rules_by m.roles.items) × (m.equations ≡ equation_count m.roles.items) };
}

impl RoleRow {
    /// Of no node. It takes no memory.
    pub(crate) fn new(alloc: Global) -> RoleRow
        ensures { result ≡ [] }
    {
        RoleRow {
            roles: Vec::new(alloc),
            equations: 0,
            held: Some(Vec::new(alloc)),
            rules: Some(Vec::new(alloc)),
        }
    }

    /// The same again.
    ///
    /// # Errors
    ///
    /// Want of memory.
    pub(crate) fn copy(&self) -> Result<RoleRow, AllocError>
        ensures { IfOk result (λ row. row ≡ self.now) }
    {
        let alloc = *self.roles.allocator();
        Ok(RoleRow {
            roles: Vec::from_slice(alloc, self.roles.as_slice())?,
            equations: self.equations,
            held: copied(alloc, &self.held)?,
            rules: copied(alloc, &self.rules)?,
        })
    }

    /// How it has each of the nodes.
    pub(crate) fn as_slice(&self) -> &[Roles]
        ensures { result.now ≡ self.now }
    {
        self.roles.as_slice()
    }

    /// Whether one of the nodes is its equation. It takes constant time.
    pub(crate) fn has_equation(&self) -> bool
        ensures { result ≡ nat_lt 0 (equation_count self.now) }
    {
        self.equations > 0
    }

    /// Those of the nodes that it has as an equation or as a rule, in their order; none where that isn't kept.
    pub(crate) fn held(&self) -> Option<&[NodeId]>
        ensures { IfSome result (λ l. map (λ (n : Numbered). n.0) l.now ≡ held_by self.now) }
    {
        match &self.held {
            Some(held) => Some(held.as_slice()),
            None => None,
        }
    }

    /// Its rules in the nodes, by node, then direction; none where that isn't kept.
    pub(crate) fn rules(&self) -> Option<&[RuleRef]>
        ensures { IfSome result (λ l. l.now ≡ rules_by self.now) }
    {
        match &self.rules {
            Some(rules) => Some(rules.as_slice()),
            None => None,
        }
    }

    /// The node follows its label of this kind, where it is one of these.
    pub(crate) fn note(&mut self, n: NodeId, kind: LabelKind, is_named: bool)
        ensures { self.new ≡ with_role_at self.old n.0 kind is_named }
    {
        let at = n.0 as usize;
        if at >= self.roles.len() {
            return;
        }
        let was = self.roles[at];
        let roles = was.with(kind, is_named);
        if !roles.is_same(was) {
            self.set(n, roles);
        }
    }

    // It has the node so from here on.
    fn set(&mut self, n: NodeId, roles: Roles)
        requires { n.0 < length self.old }
        ensures { self.new ≡ set self.old n.0 roles }
    {
        let was = self.roles[n.0 as usize];
        self.roles[n.0 as usize] = roles;
        self.equations = self.equations - one_if(was.equation) + one_if(roles.equation);
        self.held = held_with(self.held.take(), n, roles);
        self.rules = rules_with(self.rules.take(), n, roles);
    }

    /// It has the next node so.
    ///
    /// # Errors
    ///
    /// Want of memory; then all is as before.
    pub(crate) fn push(&mut self, n: NodeId, roles: Roles) -> Result<(), AllocError>
        requires { n.0 ≡ length self.old }
        ensures ok { OnOk result (self.new ≡ self.old ++ roles ∷ []) }
        ensures err { OnErr result (self.new ≡ self.old) }
    {
        self.roles.push(roles)?;
        self.equations += one_if(roles.equation);
        self.held = held_more(self.held.take(), n, roles);
        self.rules = rules_more(self.rules.take(), n, roles);
        Ok(())
    }
}

// One, where it is so.
fn one_if(is_so: bool) -> usize
    ensures value { result ≡ (if is_so then 1 else 0) }
    ensures most { result ≤ 1 }
{
    if is_so { 1 } else { 0 }
}

// The same list again, where there is one.
fn copied<T: Copy>(alloc: Global, list: &Option<Vec<T>>) -> Result<Option<Vec<T>>, AllocError>
    ensures { IfOk result (λ copy. option_map (λ l. l.items) copy ≡ option_map (λ l. l.items) list.now) }
{
    match list {
        Some(list) => Ok(Some(Vec::from_slice(alloc, list.as_slice())?)),
        None => Ok(None),
    }
}

// The list of the nodes that a process has, when it comes to have this one so; none where there is no memory for it.
fn held_with(held: Option<Vec<NodeId>>, n: NodeId, roles: Roles) -> Option<Vec<NodeId>>
    ensures { (row : List Had) → n.0 < length row → IfSome held (λ l. AreHeldBy row l.items) → IfSome result (λ l. AreHeldBy (set row n.0 roles) l.items) }
{
    let mut held = held?;
    let is_held = roles.is_in_use();
    match held.binary_search_by_key(&n.0, |m| m.0) {
        Ok(place) if !is_held => {
            held.remove(place);
            Some(held)
        }
        Err(place) if is_held => {
            held.insert(place, n).ok()?;
            Some(held)
        }
        _ => Some(held),
    }
}

// The list of the rules of a process, when it comes to have the node so; none where there is no memory for it.
fn rules_with(rules: Option<Vec<RuleRef>>, n: NodeId, roles: Roles) -> Option<Vec<RuleRef>>
    ensures { (row : List Had) → n.0 < length row → IfSome rules (λ l. l.items ≡ rules_by row) → IfSome result (λ l. l.items ≡ rules_by (set row n.0 roles)) }
{
    let first = RuleRef { node: n.0, dir: 0 };
    let second = RuleRef { node: n.0, dir: 1 };
    let rules = updated(rules, first, roles.first);
    updated(rules, second, roles.second)
}

// The list of rules with this one at its place in the order, or without it, as it is one of them or not; none where there is no
// memory for it.
fn updated(rules: Option<Vec<RuleRef>>, rule: RuleRef, is_there: bool) -> Option<Vec<RuleRef>>
    requires { rule.dir ≤ 1 }
    ensures { (has : Reference → Bool) (count : ℕ) → rule.node < count → IfSome rules (λ l. l.items ≡ filter has (rules_below count)) → IfSome result (λ l. l.items ≡ filter (but_for has rule is_there) (rules_below count)) }
{
    let mut rules = rules?;
    let number = 2 * rule.node as u32 + rule.dir as u32;
    match rules.binary_search_by_key(&number, |a| 2 * a.node as u32 + a.dir as u32) {
        Ok(place) if !is_there => {
            rules.remove(place);
            Some(rules)
        }
        Err(place) if is_there => {
            rules.insert(place, rule).ok()?;
            Some(rules)
        }
        _ => Some(rules),
    }
}

// The list of the nodes that a process has, with the next node, which it has so; none where there is no memory for it.
fn held_more(held: Option<Vec<NodeId>>, n: NodeId, roles: Roles) -> Option<Vec<NodeId>>
    ensures { (row : List Had) → n.0 ≡ length row → IfSome held (λ l. AreHeldBy row l.items) → IfSome result (λ l. AreHeldBy (row ++ roles ∷ []) l.items) }
{
    let mut held = held?;
    match push_held(&mut held, n, roles) {
        Ok(()) => Some(held),
        Err(_) => None,
    }
}

// The list of the rules of a process, with those in the next node, which it has so; none where there is no memory for it.
fn rules_more(rules: Option<Vec<RuleRef>>, n: NodeId, roles: Roles) -> Option<Vec<RuleRef>>
    ensures { (row : List Had) → n.0 ≡ length row → IfSome rules (λ l. l.items ≡ rules_by row) → IfSome result (λ l. l.items ≡ rules_by (row ++ roles ∷ [])) }
{
    let mut rules = rules?;
    match push_rules(&mut rules, n.0, roles) {
        Ok(()) => Some(rules),
        Err(_) => None,
    }
}
