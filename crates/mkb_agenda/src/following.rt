// Following commits.
ghost use Rattle.std.specs.Prelude.{ℕ, Bool, List, ◌≡◌, ◌≤◌, ◌∷◌, [], All, true, false, unwrap_or, IfOk, IfSome, OnOk, Some};
ghost use Rattle.kb_term.specs.Pair.{Pair as Equation};
ghost use Rattle.kb_term.specs.View.{tree_of};
ghost use Rattle.kb_overlap.specs.Trace.{other_side};
ghost use Rattle.kb_label.specs.Names.{Name, has};
ghost use Rattle.kb_node.specs.declared.node.NodeId.{NodeId as Numbered};
ghost use Rattle.kb_node.specs.declared.job.Job.{Job as Work};
ghost use Rattle.kb_node.specs.declared.job.Fact.{Fact as Noted};
ghost use Rattle.mkb_model.specs.Jobs.{process_of};
ghost use Rattle.mkb_model.specs.Plain.{Plain, label, pair_at};
ghost use Rattle.mkb_moves.specs.Moves.{IsNodeOf};
ghost use Rattle.mkb_rules.specs.Named.{IsThere};
ghost use Rattle.mkb_pick.specs.Listings.{IsListed, HasJob};
ghost use Rattle.mkb_agenda.specs.Agendas.{IsAgendaOf, IsListedAs, LeavesOthers};
ghost use Rattle.mkb_agenda.specs.Looking.{ComesFrom, jobs_on, BringsOne};
ghost use Rattle.mkb_agenda.specs.Following.{AllMayEnd, AreNodesOf, AreOverlappedThere, Brings, BringsAll, BringsChildren, BringsHolders, BringsIt, ComesByRewriting, ComesByRule, ForksFrom, HasNodesOf, IsBetween, IsCommitOn, jobs_by_overlap};

use crate::due::weight_of;
use crate::looking::{Touched, look_again, look_whether_ended};
use kb_label::{Labels, MAX_BITS, Process};
use kb_node::{Deduced, Fact, Job, LabelKind, NodeId};
use kb_term::{Memory, Pair, RuleRef};
use mkb_model::Proposed;
use mkb_pick::Agenda;
use mkb_rules::{Applied, KnownOn, State};
use std::alloc::Global;

/// A commit that was made on a state: the proposal, what it came to, the node to which a rewriting led, and the processes on which it
/// acted, in their order.
#[derive(Clone, Copy)]
pub struct Commit<'a> {
    pub proposal: &'a Proposed,
    pub applied: Applied,
    pub target: Option<NodeId>,
    pub names: &'a [Process],
}

/// Makes the agenda of the board before a commit that of the state after it, before any process falls asleep or wakes. It looks again
/// at those jobs alone that the commit may have changed.
///
/// # Errors
///
/// Want of memory, also where the state lacks what it keeps of each process where memory allows. The agenda is then of no board, and
/// is to be made anew.
pub fn follow(
    alloc: Global,
    agenda: &mut Agenda,
    state: &State,
    commit: &Commit,
) -> Result<(), Memory>
    requires nodes { HasNodesOf state.now commit.now.proposal.now }
    requires target { commit.now.applied ≡ Applied.Done → IfSome commit.now.target (λ m. IsThere state.now m.0) }
    ensures { OnOk result ((b : Plain) → IsCommitOn b commit.now state.now → IsAgendaOf b agenda.old.processes → IsAgendaOf state.now agenda.new.processes) }
{
    match commit.applied {
        Applied::Over(_) => {
            stop(agenda, commit.names);
            Ok(())
        }
        Applied::Done => follow_effect(alloc, agenda, state, commit),
    }
}

// The same where the proposal had its effect.
fn follow_effect(
    alloc: Global,
    agenda: &mut Agenda,
    state: &State,
    commit: &Commit,
) -> Result<(), Memory>
    requires done { commit.now.applied ≡ Applied.Done }
    requires nodes { HasNodesOf state.now commit.now.proposal.now }
    requires target { commit.now.applied ≡ Applied.Done → IfSome commit.now.target (λ m. IsThere state.now m.0) }
    ensures { OnOk result ((b : Plain) → IsCommitOn b commit.now state.now → IsAgendaOf b agenda.old.processes → IsAgendaOf state.now agenda.new.processes) }
{
    match commit.proposal {
        Proposed::Facts(facts) => know(agenda, state, facts.items()),
        Proposed::Rewrite { node, .. } => {
            rewrite(agenda, state, commit.names, *node, commit.target)
        }
        Proposed::One {
            process,
            node,
            dir,
            ..
        } => orient(agenda, state, process, *node, *dir),
        Proposed::Both { process, node, .. } => fork(agenda, state, process, *node),
        Proposed::Refuse { process, node } => {
            look_at_nodes(agenda, state, process, &[*node], &mut 0)
        }
        Proposed::Deduce { a, b, pairs } => {
            let nodes = nodes_of(alloc, state, pairs.items())?;
            let made = Overlapped {
                first: *a,
                second: *b,
                nodes: nodes.as_slice(),
            };
            deduce(agenda, state, commit.names, &made)
        }
        Proposed::Unjoined { process, pairs } => {
            let nodes = nodes_of(alloc, state, pairs.items())?;
            look_at_nodes(agenda, state, process, nodes.as_slice(), &mut 0)
        }
        Proposed::Closed { process } => look_at_nodes(agenda, state, process, &[], &mut 0),
        Proposed::Limit { .. } => Ok(()),
    }
}

// Takes each of these processes off the list, with its jobs, where it is listed.
fn stop(agenda: &mut Agenda, names: &[Process])
    ensures gone { (p : Name) (c : ℕ) (r : Bool) → has names.now p ≡ true → ¬ IsListed agenda.new.processes p c r }
    ensures no_job { (j : Work) (w : ℕ) → has names.now (process_of j) ≡ true → ¬ HasJob agenda.new.processes j w }
    ensures others { (x : Plain) (p q : Name) → has names.now q ≡ false → IsListedAs x p q agenda.old.processes → IsListedAs x p q agenda.new.processes }
{
    for i in 0..names.len() {
        if agenda.is_listed(&names[i]) {
            agenda.unlist(&names[i]);
        }
    }
}

// Looks again at jobs on nodes.
fn look_at_nodes(
    agenda: &mut Agenda,
    state: &State,
    process: &Process,
    nodes: &[NodeId],
    place: &mut usize,
) -> Result<(), Memory>
    requires { All (λ (n : Numbered). IsThere state.now n.0) nodes.now }
    ensures exact { OnOk result (BringsOne state.now process.now (λ b p. ComesFrom b p state.now process.now (jobs_on process.now nodes.now)) agenda.old.processes agenda.new.processes) }
    ensures others { OnOk result (LeavesOthers process.now agenda.old.processes agenda.new.processes) }
{
    let touched = Touched {
        nodes,
        ..Touched::none_of(process)
    };
    look_again(agenda, state, &touched, place)
}

// Reducing the node of which facts are noted may be due no more, for each process that has it. All facts of a commit are of one node.
fn know(agenda: &mut Agenda, state: &State, facts: &[Fact]) -> Result<(), Memory>
    ensures none { facts.now ≡ [] → agenda.new.processes ≡ agenda.old.processes }
    ensures exact { OnOk result ((b : Plain) (f : Noted) (fs : List Noted) → facts.now ≡ f ∷ fs → BringsHolders b state.now f.node agenda.old.processes agenda.new.processes) }
{
    match facts.first() {
        Some(fact) => look_for_holders(agenda, state, fact.node),
        None => Ok(()),
    }
}

// Looks whether reducing the node is still due for each process that has it.
fn look_for_holders(agenda: &mut Agenda, state: &State, n: NodeId) -> Result<(), Memory>
    ensures { OnOk result ((b : Plain) → BringsHolders b state.now n agenda.old.processes agenda.new.processes) }
{
    if n.0 as u32 >= state.nodes().len() {
        return Ok(());
    }
    let known = state.known_on(n);
    look_for_all(agenda, &known, LabelKind::E)?;
    look_for_all(agenda, &known, LabelKind::R0)?;
    look_for_all(agenda, &known, LabelKind::R1)
}

// Looks whether reducing the node is still due for each process that its label of this kind names. The names rise, as the living do.
fn look_for_all(agenda: &mut Agenda, known: &KnownOn, kind: LabelKind) -> Result<(), Memory>
    requires { IsThere known.now.board known.now.node.0 }
    ensures { OnOk result ((b : Plain) → AllMayEnd b known.now.board known.now.node → IsBetween b known.now.board agenda.old.processes → Brings b known.now.board (label known.now.board known.now.node.0 kind) agenda.old.processes agenda.new.processes) }
{
    let state = known.state();
    let label = state.nodes().label(known.node(), kind);
    if label.is_empty(state.log()) {
        return Ok(());
    }
    let names = label.names(state.log())?;
    let mut place = 0;
    for i in 0..names.len() {
        look_whether_ended(agenda, known, &names[i], &mut place)?;
    }
    Ok(())
}

// The process has a new rule. There is none of a direction above 1.
fn orient(
    agenda: &mut Agenda,
    state: &State,
    process: &Process,
    n: NodeId,
    dir: u8,
) -> Result<(), Memory>
    requires { IsThere state.now n.0 }
    ensures exact { dir ≤ 1 → OnOk result (BringsOne state.now process.now (λ b p. ComesByRule b p state.now process.now (record { node = n.0; dir = dir })) agenda.old.processes agenda.new.processes) }
    ensures others { OnOk result (LeavesOthers process.now agenda.old.processes agenda.new.processes) }
{
    if dir > 1 {
        return Ok(());
    }
    let touched = Touched {
        nodes: &[n],
        rules: &[RuleRef { node: n.0, dir }],
        is_wide: true,
        ..Touched::none_of(process)
    };
    look_again(agenda, state, &touched, &mut 0)
}

// Two children take the place of the process, each with a rule of its own.
fn fork(agenda: &mut Agenda, state: &State, process: &Process, n: NodeId) -> Result<(), Memory>
    requires { IsThere state.now n.0 }
    ensures { OnOk result ((b : Plain) → ForksFrom b state.now process.now n → IsBetween b b agenda.old.processes → BringsChildren b state.now process.now agenda.old.processes agenda.new.processes) }
{
    if !agenda.is_listed(process) || process.len() >= MAX_BITS {
        return Ok(());
    }
    let left = process.child(false);
    let right = process.child(true);
    if agenda.is_listed(&left) || agenda.is_listed(&right) {
        return Ok(());
    }
    agenda.split(process)?;
    orient(agenda, state, &left, n, 0)?;
    orient(agenda, state, &right, n, 1)
}

// A node is rewritten for these processes, to another one where the result is not trivial.
fn rewrite(
    agenda: &mut Agenda,
    state: &State,
    names: &[Process],
    n: NodeId,
    target: Option<NodeId>,
) -> Result<(), Memory>
    requires node { IsThere state.now n.0 }
    requires target { IfSome target (λ m. IsThere state.now m.0) }
    ensures { OnOk result (BringsAll state.now names.now (λ b. ComesByRewriting b state.now n (unwrap_or target n)) agenda.old.processes agenda.new.processes) }
{
    let m = target.unwrap_or(n);
    let mut place = 0;
    for i in 0..names.len() {
        rewrite_for(agenda, state, &names[i], (n, m), &mut place)?;
    }
    Ok(())
}

// The first node is rewritten to the second one for the process. Where it was to orient the first one, none of its rules changes.
fn rewrite_for(
    agenda: &mut Agenda,
    state: &State,
    process: &Process,
    nodes: (NodeId, NodeId),
    place: &mut usize,
) -> Result<(), Memory>
    requires node { IsThere state.now nodes.0.0 }
    requires target { IsThere state.now nodes.1.0 }
    ensures { OnOk result (BringsIt state.now process.now (λ b. ComesByRewriting b state.now nodes.0 nodes.1 process.now) agenda.old.processes agenda.new.processes) }
{
    let (n, m) = nodes;
    let orienting = Job::Orient(*process, n);
    if agenda.has(&orienting, weight_of(state, &orienting)) {
        return look_at_nodes(agenda, state, process, &[n, m], place);
    }
    let touched = Touched {
        nodes: &[n, m],
        rules: &[
            RuleRef { node: n.0, dir: 0 },
            RuleRef { node: n.0, dir: 1 },
            RuleRef { node: m.0, dir: 0 },
            RuleRef { node: m.0, dir: 1 },
        ],
        is_wide: true,
        loses_rule: true,
        ..Touched::none_of(process)
    };
    look_again(agenda, state, &touched, place)
}

// Two rules that have been overlapped, and the nodes of their pairs.
#[derive(Clone, Copy)]
struct Overlapped<'a> {
    first: RuleRef,
    second: RuleRef,
    nodes: &'a [NodeId],
}

// Two rules have been overlapped for these processes.
fn deduce(
    agenda: &mut Agenda,
    state: &State,
    names: &[Process],
    made: &Overlapped,
) -> Result<(), Memory>
    requires { AreOverlappedThere state.now made.now }
    ensures { OnOk result (BringsAll state.now names.now (λ b p. ComesFrom b p state.now p (jobs_by_overlap p made.now.first made.now.second made.now.nodes.now)) agenda.old.processes agenda.new.processes) }
{
    let mut place = 0;
    for i in 0..names.len() {
        deduce_for(agenda, state, &names[i], made, &mut place)?;
    }
    Ok(())
}

// Two rules have been overlapped for a process. No overlap of rules of a direction above 1 is due.
fn deduce_for(
    agenda: &mut Agenda,
    state: &State,
    process: &Process,
    made: &Overlapped,
    place: &mut usize,
) -> Result<(), Memory>
    requires { AreOverlappedThere state.now made.now }
    ensures { OnOk result (BringsIt state.now process.now (λ b. ComesFrom b process.now state.now process.now (jobs_by_overlap process.now made.now.first made.now.second made.now.nodes.now)) agenda.old.processes agenda.new.processes) }
{
    if made.first.dir > 1 {
        return look_at_nodes(agenda, state, process, made.nodes, place);
    }
    if made.second.dir > 1 {
        return look_at_nodes(agenda, state, process, made.nodes, place);
    }
    let touched = Touched {
        nodes: made.nodes,
        overlap: Some((made.first, made.second)),
        ..Touched::none_of(process)
    };
    look_again(agenda, state, &touched, place)
}

// The nodes of the pairs.
fn nodes_of(alloc: Global, state: &State, pairs: &[Deduced]) -> Result<Vec<NodeId>, Memory>
    ensures there { IfOk result (λ ns. All (λ (n : Numbered). IsThere state.now n.0) ns.items) }
    ensures nodes { IfOk result (λ ns. AreNodesOf state.now pairs.now ns.items) }
{
    let mut nodes = Vec::new(alloc);
    for i in 0..pairs.len() {
        if let Some(n) = node_of(state, &pairs[i].pair) {
            nodes.push(n)?;
        }
    }
    Ok(nodes)
}

// The node of the pair, where there is one. There are no two.
fn node_of(state: &State, pair: &Pair) -> Option<NodeId>
    ensures there { IfSome result (λ n. IsThere state.now n.0) }
    ensures found { (m : ℕ) → pair_at state.now m ≡ Some pair.now → result ≡ Some (record { 0 = m }) }
{
    let nodes = state.nodes();
    if nodes.len() == 0 {
        return None;
    }
    nodes.find(pair)
}
