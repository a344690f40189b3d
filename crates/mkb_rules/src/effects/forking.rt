// Processes that fork.
ghost use Rattle.std.specs.Prelude.{◌≡◌, ◌<◌, ◌∷◌, [], All, IfOk, IsTrue, OnErr, OnOk, false, length, map, true};
ghost use Rattle.kb_label.specs.Names.{child, has, relabel};
ghost use Rattle.kb_label.specs.Forks.{IsForked};
ghost use Rattle.mkb_model.specs.Plain.{label_at};
ghost use Rattle.mkb_model.specs.Effects.{counted, forked_certificates, forked_node, with_label};
ghost use Rattle.mkb_model.specs.declared.proposed.Proposed.TheVariants.{Both};
ghost use Rattle.kb_node.specs.declared.node.LabelKind.{LabelKind};
ghost use Rattle.mkb_rules.specs.Accounts.{HasChildren, Inherits, IsAccountOf, IsApart};
ghost use Rattle.mkb_rules.specs.Applying.{Commits, HasBudget};
ghost use Rattle.mkb_rules.specs.Forking.{forked_done, forked_over, fork_at, orders_after_fork, oriented_both_ways, relabelled_lists, with_names_at, with_new_names, with_parts, IsForkOf};
ghost use Rattle.mkb_rules.specs.Kept.{plain_certificates, plain_done};
ghost use Rattle.mkb_rules.specs.Over.{lists_of};
ghost use Rattle.mkb_rules.specs.Parts.{oriented_by};

use crate::account::{Account, Change, Concerned};
use crate::applied::Applied;
use crate::effects::label::{counted_up, node_count, node_label};
use crate::effects::orienting::{certify, orient_nodes};
use crate::labels::only;
use crate::nodes::Nodes;
use crate::overlapped::{DonePair, OverlappedPairs};
use crate::set_aside::HandedOn;
use crate::sleepers::Sleepers;
use crate::state::{Certified, GivenUp, State, certificate_place};
use kb_cert::Certificate;
use kb_label::{
    Labels, ListLabels, Living, MAX_BITS, MAX_LIVING, NameLog, Process, Reason, WORD_BITS,
};
use kb_node::{LabelKind, NodeId};
use kb_term::{Memory, RuleRef};
use std::alloc::{AllocError, Global};
use std::mem;

/// Parts of a state after a fork; of the lists of overlapped rules those alone that change, and who sleeps only where that changes. The
/// log forks in place.
#[derive(Drop)]
pub(crate) struct Forked {
    done: Vec<NewNames>,
    closed: ListLabels,
    over: GivenUp,
    asleep: Option<Sleepers>,
}

/// The names that come into the list of overlapped rules at a place.
#[derive(Drop)]
pub(crate) struct NewNames {
    place: usize,
    names: ListLabels,
}

// A process that forks, and its children.
#[derive(Drop)]
struct Fork<'a> {
    log: &'a NameLog,
    process: &'a Process,
    left: Process,
    right: Process,
}

impl State {
    /// The process forks: one child has the rule in direction 0, the other the rule in direction 1, each with its order.
    /// Where as many processes live as may, it gives up.
    ///
    /// # Errors
    ///
    /// Want of memory; the state is then as before.
    pub fn orient_both(
        &mut self,
        alloc: Global,
        p: &Process,
        n: NodeId,
        cert0: &Certificate,
        cert1: &Certificate,
    ) -> Result<Applied, Memory>
        requires budget { HasBudget self.old }
        requires lives { IsTrue (has self.old.living p.now) }
        requires there { n.0 < length self.old.nodes }
        ensures ok { IfOk result (Commits self.old (Both p.now n cert0.now cert1.now) self.new) }
        ensures err { OnErr result (self.new ≡ self.old) }
    {
        if self.log.living() >= MAX_LIVING {
            let names = self.orient_names(alloc, p, n)?;
            return self.give_up(alloc, Reason::Processes, &names);
        }
        let applied = self.fork(alloc, p, n, cert0, cert1)?;
        self.keep_accounts();
        Ok(applied)
    }

    // What the children cost, and how they have nodes, is kept too.
    fn keep_accounts(&mut self)
        ensures { self.new ≡ self.old }
    {
        self.nodes.keep_accounts(&self.log);
    }

    // The process forks, where there is room.
    fn fork(
        &mut self,
        alloc: Global,
        p: &Process,
        n: NodeId,
        cert0: &Certificate,
        cert1: &Certificate,
    ) -> Result<Applied, Memory>
        requires budget { HasBudget self.old }
        requires lives { IsTrue (has self.old.living p.now) }
        requires there { n.0 < length self.old.nodes }
        requires room { length self.old.living < MAX_LIVING }
        ensures ok { IfOk result (Commits self.old (Both p.now n cert0.now cert1.now) self.new) }
        ensures err { OnErr result (self.new ≡ self.old) }
    {
        self.nodes.are_few();
        let mut parts = self.forked(alloc, p)?;
        if self.log.fork(p).is_err() {
            drop(parts);
            return Err(Memory);
        }
        if try_fork(alloc, &mut self.nodes, &self.log, p, n).is_err() {
            self.log.take_back(p);
            drop(parts);
            return Err(Memory);
        }
        if fork_orders(&mut self.certificates, p, cert0, cert1).is_err() {
            self.nodes.roll_back();
            self.log.take_back(p);
            drop(parts);
            return Err(Memory);
        }
        self.take_over(&mut parts);
        drop(parts);
        Ok(Applied::Done)
    }

    // The parts after a fork take the place of those before, which take theirs; the commit is counted.
    fn take_over(&mut self, parts: &mut Forked)
        requires { HasBudget self.old }
        ensures { self.new ≡ counted (with_parts parts.old self.old) }
    {
        put_new_names(&mut self.done, &mut parts.done);
        mem::swap(&mut self.closed, &mut parts.closed);
        mem::swap(&mut self.over, &mut parts.over);
        if let Some(asleep) = &mut parts.asleep {
            mem::swap(&mut self.asleep, asleep);
        }
        self.commits = counted_up(self.commits, self.settings.budget);
    }

    // The parts after a fork.
    fn forked(&self, alloc: Global, p: &Process) -> Result<Forked, Memory>
        requires lives { IsTrue (has self.now.living p.now) }
        requires room { length self.now.living < MAX_LIVING }
        ensures parts { IfOk result (IsForkOf self.now p.now) }
        ensures short { length p.now < MAX_BITS }
        ensures forked { IsForked self.now.living }
    {
        learn_short(&self.log, p);
        let asleep = self.asleep.forked(p)?;
        let mut parts = Forked {
            done: Vec::new(alloc),
            closed: ListLabels::new(alloc),
            over: GivenUp::nobody(alloc),
            asleep,
        };
        match self.fork_lists(p, &mut parts) {
            Ok(()) => Ok(parts),
            Err(fault) => {
                drop(parts);
                Err(fault)
            }
        }
    }

    // The lists among the parts become those after a fork.
    fn fork_lists(&self, p: &Process, parts: &mut Forked) -> Result<(), Memory>
        requires short { length p.now < MAX_BITS }
        requires none { parts.old.done.items ≡ [] }
        ensures asleep { parts.new.asleep ≡ parts.old.asleep }
        ensures done { OnOk result (with_new_names parts.new.done.items self.now.done ≡ forked_done p.now self.now.done) }
        ensures closed { OnOk result (parts.new.closed ≡ relabel p.now self.now.closed) }
        ensures over { OnOk result (lists_of parts.new.over ≡ forked_over p.now self.now.over) }
    {
        note_new_names(&self.log, self.done.as_slice(), p, &mut parts.done)?;
        parts.closed = self.closed.relabelled(p)?;
        relabel_over(&self.over, p, &mut parts.over)?;
        Ok(())
    }
}

// A process that lives beside fewer than 1,023 others has fewer than 1,023 bits.
fn learn_short(log: &NameLog, p: &Process)
    requires lives { IsTrue (has log.now p.now) }
    requires room { length log.now < MAX_LIVING }
    ensures short { length p.now < MAX_BITS }
    ensures forked { IsForked log.now }
{
    log.are_forked();
}

// Makes the lists those of the processes that gave up, in which the children of the process stand in its place.
fn relabel_over(over: &GivenUp, p: &Process, lists: &mut GivenUp) -> Result<(), AllocError>
    requires { length p.now < MAX_BITS }
    ensures { OnOk result (lists.new ≡ relabelled_lists p.now over.now) }
{
    lists.nodes = over.nodes.relabelled(p)?;
    lists.processes = over.processes.relabelled(p)?;
    lists.size = over.size.relabelled(p)?;
    lists.depth = over.depth.relabelled(p)?;
    lists.variables = over.variables.relabelled(p)?;
    lists.steps = over.steps.relabelled(p)?;
    Ok(())
}

// Notes the new names of each list of overlapped rules that has the process: its children stand in its place.
fn note_new_names(
    log: &NameLog,
    done: &[DonePair],
    p: &Process,
    new: &mut Vec<NewNames>,
) -> Result<(), AllocError>
    requires short { length p.now < MAX_BITS }
    requires none { new.old.items ≡ [] }
    ensures { OnOk result (with_new_names new.new.items (plain_done done.now) ≡ forked_done p.now (plain_done done.now)) }
{
    for i in 0..done.len() {
        let pair = &done[i];
        if pair.names.has(log, p) {
            let names = pair.names.relabelled(p)?;
            new.push(NewNames { place: i, names })?;
        }
    }
    Ok(())
}

// Puts the new names into the lists of overlapped rules.
fn put_new_names(done: &mut OverlappedPairs, new: &mut Vec<NewNames>)
    ensures { done.new ≡ with_new_names new.old.items done.old }
{
    for i in 0..new.len() {
        put_names(done, &mut new[i]);
    }
}

// Puts the new names into the list at their place.
fn put_names(done: &mut OverlappedPairs, new: &mut NewNames)
    ensures { done.new ≡ with_names_at new.old.place new.old.names done.old }
{
    done.swap_names(new.place, &mut new.names);
}

// The children of the process have its order, and then each its own.
fn fork_orders(
    certificates: &mut Vec<Certified>,
    p: &Process,
    cert0: &Certificate,
    cert1: &Certificate,
) -> Result<(), Memory>
    requires { length p.now < MAX_BITS }
    ensures ok { OnOk result (plain_certificates certificates.new.items ≡ orders_after_fork p.now cert0.now cert1.now (plain_certificates certificates.old.items)) }
    ensures err { OnErr result (certificates.new.items ≡ certificates.old.items) }
{
    let first = cert0.clone()?;
    let second = cert1.clone()?;
    fork_certificates(certificates, p)?;
    certify(certificates, &p.child(false), first);
    certify(certificates, &p.child(true), second);
    Ok(())
}

// Both children of the process have its order.
fn fork_certificates(certificates: &mut Vec<Certified>, p: &Process) -> Result<(), Memory>
    requires { length p.now < MAX_BITS }
    ensures ok { OnOk result (plain_certificates certificates.new.items ≡ forked_certificates p.now (plain_certificates certificates.old.items)) }
    ensures err { OnErr result (certificates.new.items ≡ certificates.old.items) }
{
    let place = certificate_place(certificates, p);
    if place >= certificates.len() {
        return Ok(());
    }
    let certificate = certificates[place].certificate.clone()?;
    certificates.insert(
        place + 1,
        Certified {
            name: p.child(true),
            certificate,
        },
    )?;
    certificates[place].name = p.child(false);
    Ok(())
}

// The process forks at the node; after want of memory the nodes are as before.
fn try_fork(
    alloc: Global,
    nodes: &mut Nodes,
    log: &NameLog,
    p: &Process,
    n: NodeId,
) -> Result<(), AllocError>
    requires short { length p.now < MAX_BITS }
    requires there { n.0 < length nodes.old.now }
    requires first { IsTrue (has log.now (child p.now false)) }
    requires second { IsTrue (has log.now (child p.now true)) }
    ensures ok { OnOk result (nodes.new.now ≡ oriented_both_ways p.now n.0 (map (forked_node p.now) nodes.old.now)) }
    ensures before { OnOk result (nodes.new.before ≡ nodes.old.now) }
    ensures err { OnErr result (nodes.new.now ≡ nodes.old.now) }
{
    let left = only(alloc, log, &p.child(false))?;
    let right = only(alloc, log, &p.child(true))?;
    nodes.keep();
    match fork_and_orient(nodes, log, p, n, &left, &right) {
        Ok(()) => Ok(()),
        Err(fault) => {
            nodes.roll_back();
            Err(fault)
        }
    }
}

#[tactic(auto, using(crate::proofs::Relabelled::length_oriented, crate::proofs::Relabelled::length_forked))]
fn fork_and_orient(
    nodes: &mut Nodes,
    log: &NameLog,
    p: &Process,
    n: NodeId,
    left: &ListLabels,
    right: &ListLabels,
) -> Result<(), AllocError>
    requires short { length p.now < MAX_BITS }
    requires there { n.0 < length nodes.old.now }
    requires left { left.now ≡ child p.now false ∷ [] }
    requires right { right.now ≡ child p.now true ∷ [] }
    ensures ok { OnOk result (nodes.new.now ≡ oriented_by right.now (record { node = n.0; dir = 1 }) (oriented_by left.now (record { node = n.0; dir = 0 }) (map (forked_node p.now) nodes.old.now))) }
    ensures before { nodes.new.before ≡ nodes.old.before }
{
    let others = fork_nodes(nodes, log, p)?;
    orient_nodes(nodes, log, RuleRef { node: n.0, dir: 0 }, left)?;
    orient_nodes(nodes, log, RuleRef { node: n.0, dir: 1 }, right)?;
    nodes.take_in(others);
    Ok(())
}

// In each label the children of the process stand in its place. Where they stand wherever it stood, and nowhere else, what was kept
// of it is kept of them; the accounts of all others are given, so that what the children gain and lose isn't looked up in each.
fn fork_nodes(nodes: &mut Nodes, log: &NameLog, p: &Process) -> Result<Vec<Account>, AllocError>
    requires { length p.now < MAX_BITS }
    ensures ok { OnOk result (nodes.new.now ≡ map (forked_node p.now) nodes.old.now) }
    ensures right { IfOk result (λ others. All (IsAccountOf (map (forked_node p.now) nodes.old.now)) others.items) }
    ensures apart { IfOk result (λ others. All (IsApart p.now) others.items) }
    ensures before { nodes.new.before ≡ nodes.old.before }
{
    let alloc = nodes.allocator();
    let accounts = nodes.set_aside(p);
    let fork = Fork {
        log,
        process: p,
        left: p.child(false),
        right: p.child(true),
    };
    let mut all_inherit = true;
    let count = node_count(nodes);
    for i in 0..count {
        let inherit = fork_node(nodes, &fork, NodeId(i as u16))?;
        all_inherit &= inherit;
    }
    let HandedOn { children, others } = accounts.after_fork_of(alloc, p, all_inherit);
    nodes.take_back(children);
    Ok(others)
}

// In each label of the node the children of the process stand in its place. Whether they then stand wherever it stood, and nowhere
// else.
#[tactic(auto, using(crate::proofs::Relabelled::length_with))]
fn fork_node(nodes: &mut Nodes, fork: &Fork, n: NodeId) -> Result<bool, AllocError>
    requires short { length fork.now.process.now < MAX_BITS }
    requires children { HasChildren fork.now.process.now fork.now.left fork.now.right }
    requires there { n.0 < length nodes.old.now }
    ensures ok { OnOk result (nodes.new.now ≡ fork_at fork.now.process.now n.0 nodes.old.now) }
    ensures inherit { IfOk result (λ t. IsTrue t → (k : LabelKind) → Inherits fork.now.process.now (label_at nodes.old.now n.0 k)) }
    ensures before { nodes.new.before ≡ nodes.old.before }
{
    let first = fork_label(nodes, fork, n, LabelKind::R0)?;
    let second = fork_label(nodes, fork, n, LabelKind::R1)?;
    let third = fork_label(nodes, fork, n, LabelKind::E)?;
    let fourth = fork_label(nodes, fork, n, LabelKind::C0)?;
    let fifth = fork_label(nodes, fork, n, LabelKind::C1)?;
    let sixth = fork_label(nodes, fork, n, LabelKind::X)?;
    Ok(first & second & third & fourth & fifth & sixth)
}

// In one label of the node the children of the process stand in its place. Whether they then stand there if it stood there.
fn fork_label(
    nodes: &mut Nodes,
    fork: &Fork,
    n: NodeId,
    kind: LabelKind,
) -> Result<bool, AllocError>
    requires short { length fork.now.process.now < MAX_BITS }
    requires children { HasChildren fork.now.process.now fork.now.left fork.now.right }
    requires there { n.0 < length nodes.old.now }
    ensures ok { OnOk result (nodes.new.now ≡ with_label n.0 kind (relabel fork.now.process.now (label_at nodes.old.now n.0 kind)) nodes.old.now) }
    ensures inherit { IfOk result (λ t. IsTrue t → Inherits fork.now.process.now (label_at nodes.old.now n.0 kind)) }
    ensures before { nodes.new.before ≡ nodes.old.before }
{
    let old = node_label(nodes, n, kind);
    if old.is_empty(fork.log) {
        return Ok(true);
    }
    if !old.has(fork.log, fork.process) {
        return Ok(is_without_children(old, fork));
    }
    if fork.process.len() < WORD_BITS && is_without_children(old, fork) {
        nodes.relabel(fork.log, n, kind, fork.process)?;
        return Ok(true);
    }
    let label = old.relabelled(fork.process)?;
    let change = Change {
        node: n,
        kind,
        concerned: Concerned::Anyone,
    };
    nodes.set(fork.log, &change, label)?;
    Ok(true)
}

// Whether the label names no child.
fn is_without_children(label: &ListLabels, fork: &Fork) -> bool
    ensures { IsTrue result → (has label.now fork.now.left ≡ false) × (has label.now fork.now.right ≡ false) }
{
    let mut place = 0;
    !label.has_from(&fork.left, &mut place) && !label.has_from(&fork.right, &mut place)
}
