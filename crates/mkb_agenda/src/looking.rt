// Looking again at jobs of a process: those that are due are listed, and no other.
ghost use Rattle.std.specs.Prelude.{ℕ, Bool, ◌≡◌, ◌≢◌, ◌↔◌, ◌∷◌, [], All, map, None, false, IsTrue, OnOk, if◌then◌else◌};
ghost use Rattle.kb_label.specs.Names.{Name};
ghost use Rattle.kb_node.specs.declared.node.NodeId.{NodeId as Numbered};
ghost use Rattle.kb_term.specs.declared.origin.RuleRef.{RuleRef as Reference};
ghost use Rattle.kb_node.specs.declared.job.Job.{Job as Work};
ghost use Rattle.kb_node.specs.declared.job.Job.TheVariants as jobs;
ghost use Rattle.mkb_model.specs.Jobs.{process_of};
ghost use Rattle.mkb_model.specs.Plain.{Plain, weight};
ghost use Rattle.mkb_model.specs.DueJobs.{is_node_of, is_work_due};
ghost use Rattle.mkb_rules.specs.Named.{IsThere, IsRuleThere};
ghost use Rattle.mkb_pick.specs.Listings.{IsListed, IsProcess, HasJob};
ghost use Rattle.mkb_agenda.specs.Agendas.{IsListedAs, LeavesOthers};
ghost use Rattle.mkb_agenda.specs.Looking.{AreThere, BringsOne, ComesTouched, HasJobThere, HasOverlapThere, IsNearlyListed, IsSeen, KeepsOthers, ListsAnew, ListsClosing, MayEnd, bare_reach_of, is_gained, jobs_on, overlap_if, overlap_of, overlaps_with, reach_of, reductions_of, touched_jobs};

use crate::due::{Seen, weight_of};
use kb_label::Process;
use kb_node::{Job, NodeId};
use kb_term::{Memory, RuleRef};
use mkb_pick::Agenda;
use mkb_rules::{KnownOn, State, is_ordered};

/// A process and what a commit may have changed of its jobs: those on nodes, the overlaps with rules, one overlap, and, where it is
/// wide, the reducing of each node that the process has. There a new rule is one of the rules, and one that is lost is told of.
#[derive(Clone, Copy)]
pub(crate) struct Touched<'a> {
    pub(crate) process: &'a Process,
    pub(crate) nodes: &'a [NodeId],
    pub(crate) rules: &'a [RuleRef],
    pub(crate) overlap: Option<(RuleRef, RuleRef)>,
    pub(crate) is_wide: bool,
    pub(crate) loses_rule: bool,
}

impl<'a> Touched<'a> {
    /// The process, with nothing but its closing.
    pub(crate) fn none_of(process: &'a Process) -> Touched<'a>
        ensures process { result.process.now ≡ process.now }
        ensures nodes { result.nodes.now ≡ [] }
        ensures rules { result.rules.now ≡ [] }
        ensures overlap { result.overlap ≡ None }
        ensures narrow { result.is_wide ≡ false }
        ensures keeps { result.loses_rule ≡ false }
    {
        Touched {
            process,
            nodes: &[],
            rules: &[],
            overlap: None,
            is_wide: false,
            loses_rule: false,
        }
    }
}

/// Looks again at the jobs of a process that a commit may have changed, at its cost, and at its closing. A process that is not listed
/// has given up, and nothing is changed. Among the living the process is first looked for at the place, which comes to be the one
/// behind it.
///
/// # Errors
///
/// Want of memory, also where the state lacks what it keeps of each process where memory allows. What is listed for the process is
/// then of no board.
pub(crate) fn look_again(
    agenda: &mut Agenda,
    state: &State,
    touched: &Touched,
    place: &mut usize,
) -> Result<(), Memory>
    requires { AreThere state.now touched.now }
    ensures exact { OnOk result (BringsOne state.now touched.now.process.now (λ b p. ComesTouched b p state.now touched.now) agenda.old.processes agenda.new.processes) }
    ensures others { OnOk result (LeavesOthers touched.now.process.now agenda.old.processes agenda.new.processes) }
{
    let process = touched.process;
    if !agenda.is_listed(process) {
        return Ok(());
    }
    let seen = Seen::look(state, process, *place)?;
    *place = seen.place.saturating_add(1);
    let Some(cost) = state.kept_cost(seen.place, process) else {
        return Err(Memory);
    };
    look_at_work(agenda, &seen, touched)?;
    agenda.set_cost(process, cost as u64);
    look_at_closing(agenda, state, process)
}

/// Takes reducing the node off the list of a process, and lists its closing where that comes to be due, where the reducing is listed
/// and not due any more. Else nothing is changed. Beside the reducing no closing is listed.
///
/// # Errors
///
/// As for looking again.
pub(crate) fn look_whether_ended(
    agenda: &mut Agenda,
    known: &KnownOn,
    process: &Process,
    place: &mut usize,
) -> Result<(), Memory>
    requires { IsThere known.now.board known.now.node.0 }
    ensures exact { OnOk result ((b : Plain) → MayEnd b known.now.board process.now known.now.node → IsListedAs b process.now process.now agenda.old.processes → IsListedAs known.now.board process.now process.now agenda.new.processes) }
    ensures others { OnOk result (LeavesOthers process.now agenda.old.processes agenda.new.processes) }
{
    let n = known.node();
    if !agenda.is_reducing(process, n) {
        return Ok(());
    }
    let state = known.state();
    let seen = Seen::look(state, process, *place)?;
    *place = seen.place.saturating_add(1);
    if seen.may_reduce(known) {
        return Ok(());
    }
    let reducing = Job::Reduce(*process, n);
    agenda.remove(&reducing, weight_of(state, &reducing));
    list_closing(agenda, state, process)
}

// All jobs but the closing that a commit may have changed.
fn look_at_work(agenda: &mut Agenda, seen: &Seen, touched: &Touched) -> Result<(), Memory>
    requires seen { IsSeen seen.now }
    requires own { seen.now.process.now ≡ touched.now.process.now }
    requires there { AreThere seen.now.state.now touched.now }
    requires listed { IsProcess agenda.old.processes seen.now.process.now }
    ensures processes { (n : Name) (c : ℕ) (r : Bool) → IsListed agenda.new.processes n c r ↔ IsListed agenda.old.processes n c r }
    ensures others { OnOk result (KeepsOthers seen.now.process.now agenda.old.processes agenda.new.processes) }
    ensures jobs { OnOk result ((IsTrue touched.now.is_wide → IsNearlyListed seen.now.state.now seen.now.process.now (reach_of touched.now) agenda.old.processes) → ListsAnew seen.now.state.now (touched_jobs seen.now.state.now touched.now) agenda.old.processes agenda.new.processes) }
{
    look_at_nodes(agenda, seen, touched.nodes)?;
    look_at_held(agenda, seen, touched)?;
    look_at_overlaps(agenda, seen, touched.rules)?;
    look_at_overlap(agenda, seen, touched.overlap)
}

// Reducing of each of the nodes that the process has, if that is wanted.
fn look_at_held(agenda: &mut Agenda, seen: &Seen, touched: &Touched) -> Result<(), Memory>
    requires seen { IsSeen seen.now }
    requires there { All (IsRuleThere seen.now.state.now) touched.now.rules.now }
    requires listed { IsProcess agenda.old.processes seen.now.process.now }
    ensures processes { (n : Name) (c : ℕ) (r : Bool) → IsListed agenda.new.processes n c r ↔ IsListed agenda.old.processes n c r }
    ensures others { OnOk result (KeepsOthers seen.now.process.now agenda.old.processes agenda.new.processes) }
    ensures jobs { OnOk result ((IsTrue touched.now.is_wide → IsNearlyListed seen.now.state.now seen.now.process.now (bare_reach_of touched.now) agenda.old.processes) → ListsAnew seen.now.state.now (if touched.now.is_wide then reductions_of seen.now.state.now seen.now.process.now else []) agenda.old.processes agenda.new.processes) }
{
    if touched.is_wide {
        look_at_reductions(agenda, seen, touched)
    } else {
        Ok(())
    }
}

// The overlap, if there is one.
fn look_at_overlap(
    agenda: &mut Agenda,
    seen: &Seen,
    overlap: Option<(RuleRef, RuleRef)>,
) -> Result<(), Memory>
    requires seen { IsSeen seen.now }
    requires there { HasOverlapThere seen.now.state.now overlap }
    requires listed { IsProcess agenda.old.processes seen.now.process.now }
    ensures processes { (n : Name) (c : ℕ) (r : Bool) → IsListed agenda.new.processes n c r ↔ IsListed agenda.old.processes n c r }
    ensures jobs { OnOk result (ListsAnew seen.now.state.now (overlap_if seen.now.process.now overlap) agenda.old.processes agenda.new.processes) }
{
    match overlap {
        Some((a, c)) => look_at(agenda, seen, &Job::Overlap(*seen.process, a, c)),
        None => Ok(()),
    }
}

// Reducing and orienting of each of the nodes.
fn look_at_nodes(agenda: &mut Agenda, seen: &Seen, nodes: &[NodeId]) -> Result<(), Memory>
    requires seen { IsSeen seen.now }
    requires there { All (λ (n : Numbered). IsThere seen.now.state.now n.0) nodes.now }
    requires listed { IsProcess agenda.old.processes seen.now.process.now }
    ensures processes { (n : Name) (c : ℕ) (r : Bool) → IsListed agenda.new.processes n c r ↔ IsListed agenda.old.processes n c r }
    ensures jobs { OnOk result (ListsAnew seen.now.state.now (jobs_on seen.now.process.now nodes.now) agenda.old.processes agenda.new.processes) }
{
    for i in 0..nodes.len() {
        look_at_node(agenda, seen, nodes[i])?;
    }
    Ok(())
}

// Reducing and orienting of the node.
fn look_at_node(agenda: &mut Agenda, seen: &Seen, n: NodeId) -> Result<(), Memory>
    requires seen { IsSeen seen.now }
    requires there { IsThere seen.now.state.now n.0 }
    requires listed { IsProcess agenda.old.processes seen.now.process.now }
    ensures processes { (m : Name) (c : ℕ) (r : Bool) → IsListed agenda.new.processes m c r ↔ IsListed agenda.old.processes m c r }
    ensures jobs { OnOk result (ListsAnew seen.now.state.now (jobs.Reduce seen.now.process.now n ∷ jobs.Orient seen.now.process.now n ∷ []) agenda.old.processes agenda.new.processes) }
{
    look_at_reducing(agenda, seen, n)?;
    look_at(agenda, seen, &Job::Orient(*seen.process, n))
}

// Reducing of the node.
fn look_at_reducing(agenda: &mut Agenda, seen: &Seen, n: NodeId) -> Result<(), Memory>
    requires seen { IsSeen seen.now }
    requires there { IsThere seen.now.state.now n.0 }
    requires listed { IsProcess agenda.old.processes seen.now.process.now }
    ensures processes { (m : Name) (c : ℕ) (r : Bool) → IsListed agenda.new.processes m c r ↔ IsListed agenda.old.processes m c r }
    ensures jobs { OnOk result (ListsAnew seen.now.state.now (jobs.Reduce seen.now.process.now n ∷ []) agenda.old.processes agenda.new.processes) }
{
    let reducing = Job::Reduce(*seen.process, n);
    if agenda.is_reducing(seen.process, n) {
        return look_at(agenda, seen, &reducing);
    }
    if !seen.is_due(&reducing) {
        return Ok(());
    }
    agenda.add(&reducing, weight_of(seen.state, &reducing))
}

// Reducing of each of the nodes that the process has.
fn look_at_reductions(agenda: &mut Agenda, seen: &Seen, touched: &Touched) -> Result<(), Memory>
    requires seen { IsSeen seen.now }
    requires there { All (IsRuleThere seen.now.state.now) touched.now.rules.now }
    requires listed { IsProcess agenda.old.processes seen.now.process.now }
    ensures processes { (n : Name) (c : ℕ) (r : Bool) → IsListed agenda.new.processes n c r ↔ IsListed agenda.old.processes n c r }
    ensures others { OnOk result (KeepsOthers seen.now.process.now agenda.old.processes agenda.new.processes) }
    ensures jobs { OnOk result (IsNearlyListed seen.now.state.now seen.now.process.now (bare_reach_of touched.now) agenda.old.processes → ListsAnew seen.now.state.now (map (jobs.Reduce seen.now.process.now) seen.now.nodes.now) agenda.old.processes agenda.new.processes) }
{
    for i in 0..seen.nodes.len() {
        look_at_reduction(agenda, seen, touched, seen.nodes[i])?;
    }
    Ok(())
}

// Reducing the node, which the process has: one of the rules alone can have made it due, and it can be due no more only where a rule
// is lost.
fn look_at_reduction(
    agenda: &mut Agenda,
    seen: &Seen,
    touched: &Touched,
    n: NodeId,
) -> Result<(), Memory>
    requires seen { IsSeen seen.now }
    requires held { IsTrue (is_node_of seen.now.state.now seen.now.process.now n.0) }
    requires there { All (IsRuleThere seen.now.state.now) touched.now.rules.now }
    requires listed { IsProcess agenda.old.processes seen.now.process.now }
    ensures processes { (n : Name) (c : ℕ) (r : Bool) → IsListed agenda.new.processes n c r ↔ IsListed agenda.old.processes n c r }
    ensures others { OnOk result (KeepsOthers seen.now.process.now agenda.old.processes agenda.new.processes) }
    ensures jobs { OnOk result (IsNearlyListed seen.now.state.now seen.now.process.now (bare_reach_of touched.now) agenda.old.processes → ListsAnew seen.now.state.now (jobs.Reduce seen.now.process.now n ∷ []) agenda.old.processes agenda.new.processes) }
{
    if !is_reducing(agenda, seen, n) {
        return look_whether_gained(agenda, seen, touched.rules, n);
    }
    if !touched.loses_rule {
        return Ok(());
    }
    let reducing = Job::Reduce(*seen.process, n);
    if seen.is_due(&reducing) {
        return Ok(());
    }
    agenda.remove(&reducing, weight_of(seen.state, &reducing));
    Ok(())
}

// Whether reducing the node is listed under its weight.
fn is_reducing(agenda: &Agenda, seen: &Seen, n: NodeId) -> bool
    requires { IsThere seen.now.state.now n.0 }
    ensures { IsTrue result ↔ HasJob agenda.now.processes (jobs.Reduce seen.now.process.now n) (weight seen.now.state.now (jobs.Reduce seen.now.process.now n)) }
{
    if !agenda.is_reducing(seen.process, n) {
        return false;
    }
    let reducing = Job::Reduce(*seen.process, n);
    agenda.has(&reducing, weight_of(seen.state, &reducing))
}

// Lists reducing the node, which the process has and which is not listed, where one of the rules makes it due.
fn look_whether_gained(
    agenda: &mut Agenda,
    seen: &Seen,
    rules: &[RuleRef],
    n: NodeId,
) -> Result<(), Memory>
    requires seen { IsSeen seen.now }
    requires held { IsTrue (is_node_of seen.now.state.now seen.now.process.now n.0) }
    requires there { All (IsRuleThere seen.now.state.now) rules.now }
    requires listed { IsProcess agenda.old.processes seen.now.process.now }
    requires absent { ¬ HasJob agenda.old.processes (jobs.Reduce seen.now.process.now n) (weight seen.now.state.now (jobs.Reduce seen.now.process.now n)) }
    ensures processes { (n : Name) (c : ℕ) (r : Bool) → IsListed agenda.new.processes n c r ↔ IsListed agenda.old.processes n c r }
    ensures others { OnOk result (KeepsOthers seen.now.process.now agenda.old.processes agenda.new.processes) }
    ensures jobs { OnOk result ((IsTrue (is_work_due seen.now.state.now (jobs.Reduce seen.now.process.now n)) → IsTrue (is_gained seen.now.state.now seen.now.process.now rules.now n.0)) → ListsAnew seen.now.state.now (jobs.Reduce seen.now.process.now n ∷ []) agenda.old.processes agenda.new.processes) }
{
    if !seen.is_gained(rules, n) {
        return Ok(());
    }
    let reducing = Job::Reduce(*seen.process, n);
    agenda.add(&reducing, weight_of(seen.state, &reducing))
}

// The overlaps of each of the rules with each of the process's, and with each other.
fn look_at_overlaps(agenda: &mut Agenda, seen: &Seen, rules: &[RuleRef]) -> Result<(), Memory>
    requires seen { IsSeen seen.now }
    requires there { All (IsRuleThere seen.now.state.now) rules.now }
    requires listed { IsProcess agenda.old.processes seen.now.process.now }
    ensures processes { (n : Name) (c : ℕ) (r : Bool) → IsListed agenda.new.processes n c r ↔ IsListed agenda.old.processes n c r }
    ensures jobs { OnOk result (ListsAnew seen.now.state.now (overlaps_with seen.now.state.now seen.now.process.now rules.now) agenda.old.processes agenda.new.processes) }
{
    for i in 0..rules.len() {
        look_at_row(agenda, seen, rules[i], seen.rules)?;
        look_at_row(agenda, seen, rules[i], rules)?;
    }
    Ok(())
}

// The overlaps of the rule with each of the others.
fn look_at_row(
    agenda: &mut Agenda,
    seen: &Seen,
    rule: RuleRef,
    others: &[RuleRef],
) -> Result<(), Memory>
    requires seen { IsSeen seen.now }
    requires there { IsThere seen.now.state.now rule.node }
    requires others { All (λ (a : Reference). IsThere seen.now.state.now a.node) others.now }
    requires listed { IsProcess agenda.old.processes seen.now.process.now }
    ensures processes { (n : Name) (c : ℕ) (r : Bool) → IsListed agenda.new.processes n c r ↔ IsListed agenda.old.processes n c r }
    ensures jobs { OnOk result (ListsAnew seen.now.state.now (map (overlap_of seen.now.process.now rule) others.now) agenda.old.processes agenda.new.processes) }
{
    for i in 0..others.len() {
        look_at(agenda, seen, &overlap_of(seen.process, rule, others[i]))?;
    }
    Ok(())
}

// The overlap of two rules, in their order.
fn overlap_of(process: &Process, a: RuleRef, c: RuleRef) -> Job
    ensures { result ≡ overlap_of process.now a c }
{
    if is_ordered(a, c) {
        Job::Overlap(*process, a, c)
    } else {
        Job::Overlap(*process, c, a)
    }
}

// Lists the job, or takes it off the list, where it is due or not.
fn look_at(agenda: &mut Agenda, seen: &Seen, job: &Job) -> Result<(), Memory>
    requires seen { IsSeen seen.now }
    requires own { process_of job.now ≡ seen.now.process.now }
    requires there { HasJobThere seen.now.state.now job.now }
    requires listed { IsProcess agenda.old.processes seen.now.process.now }
    ensures processes { (n : Name) (c : ℕ) (r : Bool) → IsListed agenda.new.processes n c r ↔ IsListed agenda.old.processes n c r }
    ensures jobs { OnOk result (ListsAnew seen.now.state.now (job.now ∷ []) agenda.old.processes agenda.new.processes) }
{
    let weight = weight_of(seen.state, job);
    if !seen.is_due(job) {
        agenda.remove(job, weight);
        return Ok(());
    }
    if agenda.has(job, weight) {
        return Ok(());
    }
    agenda.add(job, weight)
}

// Lists the closing of the process where it has no other job and is not closed, and else takes it off the list. Where another job is
// listed and the closing is not, nothing is changed.
fn look_at_closing(agenda: &mut Agenda, state: &State, process: &Process) -> Result<(), Memory>
    requires listed { IsProcess agenda.old.processes process.now }
    ensures processes { (n : Name) (c : ℕ) (r : Bool) → IsListed agenda.new.processes n c r ↔ IsListed agenda.old.processes n c r }
    ensures others { (j : Work) (w : ℕ) → j ≢ jobs.Close process.now → HasJob agenda.new.processes j w ↔ HasJob agenda.old.processes j w }
    ensures closing { OnOk result (ListsClosing state.now process.now agenda.old.processes agenda.new.processes) }
{
    if agenda.is_idle(process) {
        return list_closing(agenda, state, process);
    }
    if agenda.remove(&Job::Close(*process), 0) {
        return list_closing(agenda, state, process);
    }
    Ok(())
}

// Lists the closing of the process where it has no job and is not closed; where it is listed, nothing is changed.
fn list_closing(agenda: &mut Agenda, state: &State, process: &Process) -> Result<(), Memory>
    requires { IsProcess agenda.old.processes process.now }
    ensures processes { (n : Name) (c : ℕ) (r : Bool) → IsListed agenda.new.processes n c r ↔ IsListed agenda.old.processes n c r }
    ensures others { (j : Work) (w : ℕ) → j ≢ jobs.Close process.now → HasJob agenda.new.processes j w ↔ HasJob agenda.old.processes j w }
    ensures closing { OnOk result (¬ HasJob agenda.old.processes (jobs.Close process.now) 0 → ListsClosing state.now process.now agenda.old.processes agenda.new.processes) }
{
    if agenda.is_idle(process) && !state.is_closed(process) {
        agenda.add(&Job::Close(*process), 0)
    } else {
        Ok(())
    }
}
