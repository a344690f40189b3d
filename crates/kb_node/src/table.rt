// The table of nodes.
ghost use Rattle.std.specs.Prelude.{◌≡◌, ℕ, ◌+◌, ◌*◌, [], Some, ◌<◌, ◌≤◌, ◌↔◌, length, take, slice_get, option_map, MatchOption, ◌++◌, ◌==◌, if◌then◌else◌, IsTrue, IfOk, IfSome, IfNone, OnOk, OnErr};
ghost use Rattle.kb_label.specs.Names.{has};
ghost use Rattle.kb_term.specs.Tree.{tree_size};
ghost use Rattle.kb_term.specs.Pair.{IsCanonicalPair, Pair as Equation};
ghost use Rattle.kb_term.specs.View.{tree_of};
ghost use Rattle.kb_node.specs.Banked.{IsPairWithin};
ghost use Rattle.kb_node.specs.Labelled.{label_in, with_label_at, pairs_of, is_dead_under, HasPair, LacksPair, AreDistinct, AddsNode};
ghost use Rattle.kb_node.specs.Views.{when, directions_at, equations_of, rules_of, constraints_of};

use crate::fault::NodeFault;
use crate::node::{Entry, LabelKind, NodeId};
use crate::sides::{Sides, intern, is_within, sides_in};
use crate::view::{NodeIds, RuleRefs, View};
use indexmap::IndexSet;
use kb_label::{Labels, Process};
use kb_term::{MAX_NODES, MAX_SIZE, Memory, Origin, Pair, RuleRef, Term};
use std::alloc::{AllocError, Global};
use std::marker::Model;
use term_bank::Bank;

/// The nodes, one for each pair, in the order in which they were added. Contracts see it as the list of its nodes.
///
/// The terms of the pairs stand in a bank alone, and a node is found by the cells of its sides: in the time that it takes to
/// look up both sides, expected over hashes.
#[derive(Drop)]
pub struct NodeTable<L: Labels> {
    entries: Vec<Entry<L>>,
    bank: Bank,
    sides: IndexSet<Sides>,
    // How many cells the bank had before each node came in.
    starts: Vec<u32>,
}

impl<L: Labels> Model for NodeTable<L> {
    ghost use Rattle.std.specs.Prelude.{List};
    ghost use Rattle.kb_node.specs.Labelled.{Node};
    ghost use Rattle.std.specs.Coded.{codes};
    ghost use Rattle.kb_term.specs.Coding.{coded_pair};

    ghost Value = { List (Node L) };

    ghost coded = { Prim.hlevel (codes, coded_pair) };

    ghost use Rattle.kb_node.specs.Stored.{nodes_in, IsStored};

    ghost view = { λ t. nodes_in t.bank t.sides.keys t.entries.items };

    ghost invariant = { λ t. IsStored t.bank t.sides.keys t.starts.items t.entries.items };
}

impl<L: Labels> NodeTable<L> {
    /// No node. It takes no memory.
    pub fn new(alloc: Global) -> NodeTable<L>
        ensures { result ≡ [] }
    {
        NodeTable {
            entries: Vec::new(alloc),
            bank: Bank::new(alloc),
            sides: IndexSet::new(alloc),
            starts: Vec::new(alloc),
        }
    }

    /// How many nodes there are, at most 4,096.
    pub fn len(&self) -> u32
        ensures count { result ≡ length self.now }
        ensures most { result ≤ MAX_NODES }
        ensures distinct { AreDistinct self.now }
    {
        self.entries.len() as u32
    }

    /// The pair of a node.
    pub fn pair(&self, n: NodeId) -> Result<Pair, Memory>
        requires { n.0 < length self.now }
        ensures { IfOk result (HasPair self.now n.0) }
    {
        let sides = self.sides.as_slice()[n.0 as usize];
        let first = self.bank.view(sides.first)?;
        let second = self.bank.view(sides.second)?;
        Ok(Pair::from_sides(first, second))
    }

    /// The side of a node that hasn't the number: the second where it is 0, else the first.
    pub fn other_side(&self, n: NodeId, number: u8) -> Result<Term, Memory>
        requires { n.0 < length self.now }
        ensures { IfOk result (λ t. (q : Equation) → HasPair self.now n.0 q → tree_of t ≡ (if number == 0 then q.second else q.first)) }
    {
        let sides = self.sides.as_slice()[n.0 as usize];
        if number == 0 {
            let after = self.bank.view(sides.second)?;
            return Ok(after);
        }
        let before = self.bank.view(sides.first)?;
        Ok(before)
    }

    /// The sizes of both sides of a node together, at most 1,024. It takes no memory, and constant time.
    pub fn size(&self, n: NodeId) -> u32
        requires { n.0 < length self.now }
        ensures size { option_map (λ node. tree_size node.pair.first + tree_size node.pair.second) (slice_get self.now n.0) ≡ Some result }
        ensures most { result ≤ 2 * MAX_SIZE }
    {
        let sides = self.sides.as_slice()[n.0 as usize];
        self.bank.size(sides.first) + self.bank.size(sides.second)
    }

    /// How the pair of a node was made first.
    pub fn origin(&self, n: NodeId) -> Result<Origin, Memory>
        requires { n.0 < length self.now }
        ensures { IfOk result (λ origin. option_map (λ node. node.origin) (slice_get self.now n.0) ≡ Some origin) }
    {
        let origin = self.entries[n.0 as usize].origin.clone()?;
        Ok(origin)
    }

    /// The label of a node that has this kind.
    pub fn label(&self, n: NodeId, kind: LabelKind) -> &L
        requires { n.0 < length self.now }
        ensures { option_map (λ node. label_in node kind) (slice_get self.now n.0) ≡ Some result.now }
    {
        self.entries[n.0 as usize].label(kind)
    }

    /// Puts a label in the place of the node's label of this kind, which it gives. It takes no memory.
    pub fn set_label(&mut self, n: NodeId, kind: LabelKind, label: L) -> L
        requires { n.0 < length self.old }
        ensures old { option_map (λ node. label_in node kind) (slice_get self.old n.0) ≡ Some result }
        ensures new { self.new ≡ with_label_at self.old n.0 kind label }
    {
        let entry = &mut self.entries[n.0 as usize];
        entry.set_label(kind, label)
    }

    /// Whether no process has the node as a rule or as an equation.
    pub fn is_dead(&self, log: &L::Log, n: NodeId) -> bool
        requires { n.0 < length self.now }
        ensures { option_map (is_dead_under L.names_under log.now) (slice_get self.now n.0) ≡ Some result }
    {
        let entry = &self.entries[n.0 as usize];
        entry.rule0.is_empty(log) && entry.rule1.is_empty(log) && entry.equation.is_empty(log)
    }

    /// Keeps the first nodes alone. It takes no memory.
    pub fn truncate(&mut self, len: u32)
        requires { len ≤ length self.old }
        ensures { self.new ≡ take len self.old }
    {
        let len = len as usize;
        if len < self.entries.len() {
            self.bank.cut(self.starts[len]);
            self.starts.truncate(len);
            self.sides.truncate(len);
            self.entries.truncate(len);
        }
    }

    /// The node that has the pair; none where no node has it. It takes no memory.
    pub fn find(&self, pair: &Pair) -> Option<NodeId>
        ensures { MatchOption result (LacksPair self.now pair.now) (λ n. HasPair self.now n.0 pair.now) }
    {
        let sides = sides_in(&self.bank, pair)?;
        let number = self.sides.get_index_of(&sides)?;
        Some(NodeId(number as u16))
    }

    /// The node that has the pair, which keeps its origin; else one more node, without labels.
    ///
    /// # Errors
    ///
    /// `Full` where the pair is new and the table has 4,096 nodes, and want of memory; the table is then as before. A new
    /// pair that passes a limit of terms counts as want of memory, since the bank has cells for others alone.
    pub fn find_or_add(&mut self, pair: Pair, origin: Origin) -> Result<NodeId, NodeFault>
        ensures present { (n : ℕ) → HasPair self.old n pair → (result ≡ Ok (record { 0 = n })) × (self.new ≡ self.old) }
        ensures added { LacksPair self.old pair → IfOk result (λ n. (n.0 ≡ length self.old) × AddsNode L.names_under self.old self.new pair origin) }
        ensures full { (result ≡ Err NodeFault.Full) ↔ (LacksPair self.old pair × (length self.old ≡ MAX_NODES)) }
        ensures limit { LacksPair self.old pair → length self.old < MAX_NODES → (IsPairWithin pair → ⊥) → result ≡ Err NodeFault.Memory }
        ensures err { OnErr result (self.new ≡ self.old) }
    {
        let answer = match self.settled(&pair) {
            Some(settled) => {
                drop(origin);
                settled
            }
            None => self.add(&pair, origin),
        };
        drop(pair);
        answer
    }

    // What is answered without one more node: where some node has the pair, the table is full or the pair passes a limit of terms.
    fn settled(&self, pair: &Pair) -> Option<Result<NodeId, NodeFault>>
        ensures present { (n : ℕ) → HasPair self.now n pair.now → result ≡ Some (Ok (record { 0 = n })) }
        ensures found { IfSome result (λ r. IfOk r (λ n. HasPair self.now n.0 pair.now)) }
        ensures full { (result ≡ Some (Err NodeFault.Full)) ↔ (LacksPair self.now pair.now × (length self.now ≡ MAX_NODES)) }
        ensures limit { LacksPair self.now pair.now → length self.now < MAX_NODES → (IsPairWithin pair.now → ⊥) → result ≡ Some (Err NodeFault.Memory) }
        ensures none { IfNone result (LacksPair self.now pair.now × (length self.now < MAX_NODES) × IsPairWithin pair.now) }
    {
        let is_full = self.entries.len() == MAX_NODES;
        match self.find(pair) {
            Some(n) => Some(Ok(n)),
            None if is_full => Some(Err(NodeFault::Full)),
            None if !is_within(pair) => Some(Err(NodeFault::Memory)),
            None => None,
        }
    }

    // One more node, without labels, where there is memory for it.
    fn add(&mut self, pair: &Pair, origin: Origin) -> Result<NodeId, NodeFault>
        requires new { LacksPair self.old pair.now }
        requires room { length self.old < MAX_NODES }
        requires within { IsPairWithin pair.now }
        requires canonical { IsCanonicalPair pair.now }
        ensures added { IfOk result (λ n. (n.0 ≡ length self.old) × AddsNode L.names_under self.old self.new pair.now origin) }
        ensures memory { OnErr result (result ≡ Err NodeFault.Memory) }
        ensures err { OnErr result (self.new ≡ self.old) }
    {
        self.entries.reserve(1)?;
        self.sides.reserve(1)?;
        self.starts.reserve(1)?;
        let start = self.bank.used();
        let sides = intern(&mut self.bank, pair)?;
        self.starts.push(start).unwrap();
        self.sides.insert(sides).unwrap();
        let number = self.entries.len();
        let entry = Entry::unlabelled(*self.entries.allocator(), origin);
        self.entries.push(entry).unwrap();
        Ok(NodeId(number as u16))
    }

    /// What a process sees of the nodes.
    pub fn view_of(&self, log: &L::Log, p: &Process) -> Result<View, Memory>
        ensures equations { IfOk result (λ v. v.equations ≡ equations_of L.names_under log.now p.now self.now) }
        ensures rules { IfOk result (λ v. v.rules ≡ rules_of L.names_under log.now p.now self.now) }
        ensures constraints { IfOk result (λ v. v.constraints ≡ constraints_of L.names_under log.now p.now self.now) }
    {
        let alloc = *self.entries.allocator();
        let mut equations = NodeIds::new(alloc);
        let mut rules = RuleRefs::new(alloc);
        let mut constraints = RuleRefs::new(alloc);
        for i in 0..self.entries.len() {
            let entry = &self.entries[i];
            let number = i as u16;
            push_equation(&mut equations, log, p, number, &entry.equation)?;
            push_directions(&mut rules, log, p, number, &entry.rule0, &entry.rule1)?;
            push_directions(
                &mut constraints,
                log,
                p,
                number,
                &entry.constraint0,
                &entry.constraint1,
            )?;
        }
        Ok(View {
            equations,
            rules,
            constraints,
        })
    }
}

// Adds a node whose label has the process.
fn push_equation<L: Labels>(
    equations: &mut NodeIds,
    log: &L::Log,
    p: &Process,
    node: u16,
    label: &L,
) -> Result<(), AllocError>
    ensures { OnOk result (equations.new ≡ equations.old ++ when (has (L.names_under log.now label.now) p.now) (record { 0 = node })) }
{
    if label.has(log, p) {
        equations.push(NodeId(node))?;
    }
    Ok(())
}

// Adds the directions of a node whose label has the process.
fn push_directions<L: Labels>(
    rules: &mut RuleRefs,
    log: &L::Log,
    p: &Process,
    node: u16,
    forth: &L,
    back: &L,
) -> Result<(), AllocError>
    ensures { OnOk result (rules.new ≡ rules.old ++ directions_at L.names_under log.now p.now node forth.now back.now) }
{
    if forth.has(log, p) {
        rules.push(RuleRef { node, dir: 0 })?;
    }
    if back.has(log, p) {
        rules.push(RuleRef { node, dir: 1 })?;
    }
    Ok(())
}
