// Whether any job may be taken, found out without memory.
ghost use Rattle.std.specs.Prelude.{◌≡◌, ◌<◌, ◌&&◌, is_some, length, map, IsTrue};
ghost use Rattle.std.specs.List.{list_any};
ghost use Rattle.kb_label.specs.Names.{has};
ghost use Rattle.kb_term.specs.declared.origin.RuleRef.{RuleRef as Reference};
ghost use Rattle.kb_node.specs.declared.job.Job.TheVariants as jobs;
ghost use Rattle.mkb_model.specs.Plain.{directions, is_rule, node_numbers, rules_of};
ghost use Rattle.mkb_model.specs.DueJobs.{first_job, is_reducible, work_of};
ghost use Rattle.mkb_rules.specs.Roles.{roles_of};
ghost use Rattle.mkb_board.specs.Choosing.{jobs_of, first_choice, is_choice, overlaps_of, ClosedRest};
ghost use Rattle.mkb_agenda.specs.Open.{is_open_to};

use crate::choosing::{is_equation, is_rule, node_count};
use crate::due::{is_free, is_overlap_due};
use kb_label::Process;
use kb_node::{Job, NodeId};
use kb_term::RuleRef;
use mkb_agenda::{is_open_to, roles_by};
use mkb_model::Ticket;
use mkb_rules::{Roles, State};

/// Whether there is a first job beside those in flight. It takes no memory, but goes over all nodes again and again, so it is for
/// where no memory is found to ask the agenda.
pub(crate) fn has_first(state: &State, flight: &[Ticket]) -> bool
    requires { ClosedRest state.now }
    ensures { result ≡ is_some (first_job (record state.now { flight = flight.now })) }
{
    let living = state.log().processes();
    for i in 0..living.len() {
        let process = &living[i];
        if !state.is_asleep(process) && has_choice(state, flight, process) {
            return true;
        }
    }
    false
}

// Whether the process would take any job.
fn has_choice(state: &State, flight: &[Ticket], p: &Process) -> bool
    requires rest { ClosedRest state.now }
    requires lives { IsTrue (has state.now.living p.now) }
    ensures { result ≡ is_some (first_choice state.now (jobs_of flight.now) p.now) }
{
    if state.is_closed(p) || state.is_over(p) {
        return false;
    }
    if has_work(state, flight, p) {
        return true;
    }
    !has_work(state, &[], p) && is_free(flight, &Job::Close(*p))
}

// Whether some work of the process is due and clashes with none in flight; closing is none of it.
fn has_work(state: &State, flight: &[Ticket], p: &Process) -> bool
    ensures { result ≡ list_any (is_choice state.now (jobs_of flight.now)) (work_of state.now p.now) }
{
    has_reduce(state, flight, p) || has_orient(state, flight, p) || has_overlap(state, flight, p)
}

// Whether some node may be reduced.
fn has_reduce(state: &State, flight: &[Ticket], p: &Process) -> bool
    ensures { result ≡ list_any (is_choice state.now (jobs_of flight.now)) (map (λ n. jobs.Reduce p.now (record { 0 = n })) (node_numbers state.now)) }
{
    for n in 0..node_count(state) {
        if may_reduce(state, flight, p, NodeId(n as u16)) {
            return true;
        }
    }
    false
}

// Whether the process may reduce the node, and that clashes with nothing in flight.
fn may_reduce(state: &State, flight: &[Ticket], p: &Process, n: NodeId) -> bool
    requires { n.0 < length state.now.nodes }
    ensures { result ≡ is_choice state.now (jobs_of flight.now) (jobs.Reduce p.now n) }
{
    let roles = roles_by(state, &[], p, n);
    (roles.is_in_use() && has_open_rule(state, p, roles, n)) && is_free(flight, &Job::Reduce(*p, n))
}

// Whether some rule of the process is open to the node, which it has in these roles.
fn has_open_rule(state: &State, p: &Process, roles: Roles, n: NodeId) -> bool
    requires { roles ≡ roles_of state.now p.now n.0 }
    ensures { result ≡ is_reducible state.now p.now n.0 }
{
    for m in 0..node_count(state) {
        if has_open_direction(state, p, roles, n, NodeId(m as u16)) {
            return true;
        }
    }
    false
}

// Whether the process has the second node as a rule that is open to the first one.
fn has_open_direction(state: &State, p: &Process, roles: Roles, n: NodeId, m: NodeId) -> bool
    requires { m.0 < length state.now.nodes }
    ensures { result ≡ list_any (λ (a : Reference). is_rule state.now p.now a && is_open_to state.now roles n.0 a) (directions m.0) }
{
    let forth = RuleRef { node: m.0, dir: 0 };
    let back = RuleRef { node: m.0, dir: 1 };
    (is_rule(state, p, forth) && is_open_to(state, roles, n, forth))
        || (is_rule(state, p, back) && is_open_to(state, roles, n, back))
}

// Whether some node may be oriented.
fn has_orient(state: &State, flight: &[Ticket], p: &Process) -> bool
    ensures { result ≡ list_any (is_choice state.now (jobs_of flight.now)) (map (λ n. jobs.Orient p.now (record { 0 = n })) (node_numbers state.now)) }
{
    for n in 0..node_count(state) {
        if may_orient(state, flight, p, NodeId(n as u16)) {
            return true;
        }
    }
    false
}

// Whether the process may orient the node, and that clashes with nothing in flight.
fn may_orient(state: &State, flight: &[Ticket], p: &Process, n: NodeId) -> bool
    requires { n.0 < length state.now.nodes }
    ensures { result ≡ is_choice state.now (jobs_of flight.now) (jobs.Orient p.now n) }
{
    (is_equation(state, p, n) && !state.is_refused(p, n)) && is_free(flight, &Job::Orient(*p, n))
}

// Whether some two rules may be overlapped.
fn has_overlap(state: &State, flight: &[Ticket], p: &Process) -> bool
    ensures { result ≡ list_any (is_choice state.now (jobs_of flight.now)) (overlaps_of state.now p.now) }
{
    for n in 0..node_count(state) {
        if has_overlap_at(state, flight, p, NodeId(n as u16)) {
            return true;
        }
    }
    false
}

// Whether the process has the node as a rule that may be overlapped with one of its rules.
fn has_overlap_at(state: &State, flight: &[Ticket], p: &Process, n: NodeId) -> bool
    requires { n.0 < length state.now.nodes }
    ensures { result ≡ list_any (λ (a : Reference). is_rule state.now p.now a && list_any (is_choice state.now (jobs_of flight.now)) (map (jobs.Overlap p.now a) (rules_of state.now p.now))) (directions n.0) }
{
    let forth = RuleRef { node: n.0, dir: 0 };
    let back = RuleRef { node: n.0, dir: 1 };
    (is_rule(state, p, forth) && has_second(state, flight, p, forth))
        || (is_rule(state, p, back) && has_second(state, flight, p, back))
}

// Whether some rule of the process may be overlapped with this one.
fn has_second(state: &State, flight: &[Ticket], p: &Process, a: RuleRef) -> bool
    requires { a.node < length state.now.nodes }
    ensures { result ≡ list_any (is_choice state.now (jobs_of flight.now)) (map (jobs.Overlap p.now a) (rules_of state.now p.now)) }
{
    for n in 0..node_count(state) {
        if may_overlap_at(state, flight, p, a, NodeId(n as u16)) {
            return true;
        }
    }
    false
}

// Whether the first rule may be overlapped with the node in one of its directions.
fn may_overlap_at(state: &State, flight: &[Ticket], p: &Process, a: RuleRef, n: NodeId) -> bool
    requires first { a.node < length state.now.nodes }
    requires second { n.0 < length state.now.nodes }
    ensures { result ≡ list_any (λ (c : Reference). is_choice state.now (jobs_of flight.now) (jobs.Overlap p.now a c)) (directions n.0) }
{
    may_overlap(state, flight, p, a, RuleRef { node: n.0, dir: 0 })
        || may_overlap(state, flight, p, a, RuleRef { node: n.0, dir: 1 })
}

// Whether two rules of the process, in this order, may be overlapped, and that clashes with nothing in flight.
fn may_overlap(state: &State, flight: &[Ticket], p: &Process, a: RuleRef, c: RuleRef) -> bool
    requires first { a.node < length state.now.nodes }
    requires second { c.node < length state.now.nodes }
    ensures { result ≡ is_choice state.now (jobs_of flight.now) (jobs.Overlap p.now a c) }
{
    is_overlap_due(state, p, a, c) && is_free(flight, &Job::Overlap(*p, a, c))
}
