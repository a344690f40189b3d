// The verdict, and which jobs are due.
ghost use Rattle.std.specs.Prelude.{◌≡◌, ◌<◌, ◌≤◌, ◌&&◌, ◌||◌, not, false, length, IsTrue};
ghost use Rattle.std.specs.List.{find, list_all, list_any};
ghost use Rattle.std.specs.Prelude.{option_and_then};
ghost use Rattle.kb_label.specs.Names.{Name, has};
ghost use Rattle.kb_node.specs.declared.node.LabelKind.TheVariants.{E};
ghost use Rattle.mkb_model.specs.Plain.{is_equation, is_rule, is_over, over_reason, equations_of, rule_kind};
ghost use Rattle.mkb_model.specs.Verdicts.{verdict, is_complete, first_over};
ghost use Rattle.mkb_model.specs.Sleeping.{is_active, is_failed, no_members, working as working_on};
ghost use Rattle.mkb_board.specs.Choosing.{ClosedRest};
ghost use Rattle.mkb_board.specs.Working.{processes_in};

use crate::working::Placed;
use kb_label::{Process, Reason, Spent, Verdict};
use kb_node::{LabelKind, NodeId};
use kb_term::{MAX_NODES, RuleRef};
use mkb_rules::State;

/// The verdict, if one stands, given who works and the first process that is complete. It takes no memory, and goes over the
/// processes only where nobody works.
pub(crate) fn verdict(
    state: &State,
    working: &[Placed],
    completed: Option<Process>,
) -> Option<Verdict>
    requires rest { ClosedRest state.now }
    requires works { processes_in working.now ≡ working_on state.now state.now.asleep }
    requires completes { completed ≡ find (is_complete state.now) state.now.living }
    ensures { result ≡ verdict state.now }
{
    if let Some(process) = completed {
        return Some(Verdict::Complete(process));
    }
    if working.is_empty() && have_all_failed(state) {
        return Some(Verdict::AllFailed);
    }
    if state.commits() == state.settings().budget {
        return Some(Verdict::Spent(Spent::Commits));
    }
    if !working.is_empty() || !have_all_stopped(state) {
        return None;
    }
    match first_reason(state) {
        Some(reason) => Some(Verdict::Spent(Spent::Over(reason))),
        None => None,
    }
}

// Whether each process has failed. The last one by name, which is mostly the last to fail, is asked before all others.
fn have_all_failed(state: &State) -> bool
    requires rest { ClosedRest state.now }
    ensures { result ≡ list_all (is_failed state.now) state.now.living }
{
    let living = state.log().processes();
    if goes_last_on(state) {
        return false;
    }
    let mut closed = 0;
    for i in 0..living.len() {
        if !is_failed(state, i, &living[i], &mut closed) {
            return false;
        }
    }
    true
}

// Whether the last process by name has not failed.
fn goes_last_on(state: &State) -> bool
    requires rest { ClosedRest state.now }
    ensures { IsTrue result → list_all (is_failed state.now) state.now.living ≡ false }
{
    let living = state.log().processes();
    if living.is_empty() {
        return false;
    }
    let last = living.len() - 1;
    let mut closed = last;
    !is_failed(state, last, &living[last], &mut closed)
}

// Whether each process has failed or given up.
fn have_all_stopped(state: &State) -> bool
    requires rest { ClosedRest state.now }
    ensures { result ≡ list_all (λ (p : Name). is_failed state.now p || is_over state.now p) state.now.living }
{
    if !state.has_over() {
        return have_all_failed(state);
    }
    let living = state.log().processes();
    let mut closed = 0;
    for i in 0..living.len() {
        if !is_failed(state, i, &living[i], &mut closed) && !state.is_over(&living[i]) {
            return false;
        }
    }
    true
}

// The reason of the first process by name that gave up.
fn first_reason(state: &State) -> Option<Reason>
    ensures { result ≡ option_and_then (over_reason state.now) (first_over state.now) }
{
    let living = state.log().processes();
    for i in 0..living.len() {
        if state.is_over(&living[i]) {
            return state.over(&living[i]);
        }
    }
    None
}

/// Whether the process at this place among the living has an equation. It goes over the nodes only where the state doesn't keep it
/// at the place.
pub(crate) fn has_equation(state: &State, place: usize, p: &Process) -> bool
    ensures { result ≡ not (no_members (equations_of state.now p.now)) }
{
    match state.has_equation(place, p) {
        Some(has) => has,
        None => has_equation_of_all(state, p),
    }
}

// Whether one of all nodes is an equation of the process.
fn has_equation_of_all(state: &State, p: &Process) -> bool
    ensures { result ≡ not (no_members (equations_of state.now p.now)) }
{
    for n in 0..node_count(state) {
        if is_equation(state, p, NodeId(n as u16)) {
            return true;
        }
    }
    false
}

// Whether the process has the node as an equation.
pub(crate) fn is_equation(state: &State, p: &Process, n: NodeId) -> bool
    requires { n.0 < length state.now.nodes }
    ensures { result ≡ is_equation state.now p.now n.0 }
{
    state.has_label(p, n, LabelKind::E)
}

// Whether the process has the rule.
pub(crate) fn is_rule(state: &State, p: &Process, rule: RuleRef) -> bool
    requires { rule.node < length state.now.nodes }
    ensures { result ≡ is_rule state.now p.now rule }
{
    let kind = if rule.dir == 0 {
        LabelKind::R0
    } else {
        LabelKind::R1
    };
    state.has_label(p, NodeId(rule.node), kind)
}

/// Whether the process at this place among the living has neither failed nor given up. Who is closed is searched for from a place on,
/// which is left behind the process. It takes no memory.
pub(crate) fn is_active(state: &State, place: usize, p: &Process, closed: &mut usize) -> bool
    requires rest { ClosedRest state.now }
    requires lives { IsTrue (has state.now.living p.now) }
    ensures { result ≡ is_active state.now p.now }
{
    !is_failed(state, place, p, closed) && !state.is_over(p)
}

// Whether the process has not given up, has an equation and nothing is due for it: where it is closed with an equation.
fn is_failed(state: &State, place: usize, p: &Process, closed: &mut usize) -> bool
    requires rest { ClosedRest state.now }
    requires lives { IsTrue (has state.now.living p.now) }
    ensures { result ≡ is_failed state.now p.now }
{
    state.is_closed_from(p, closed) && has_equation(state, place, p)
}

/// How many nodes there are.
pub(crate) fn node_count(state: &State) -> u32
    ensures count { result ≡ length state.now.nodes }
    ensures most { result ≤ MAX_NODES }
{
    state.nodes().len()
}
