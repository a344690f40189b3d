// The cost of a process.
ghost use Rattle.std.specs.Prelude.{◌≡◌, ◌<◌, ◌≤◌, ◌*◌, length};
ghost use Rattle.mkb_model.specs.Limits.{AreLimited};
ghost use Rattle.mkb_model.specs.Plain.{node_size, cost};
ghost use Rattle.mkb_board.specs.Choosing.{one_if, role_count, rule_count};

use crate::choosing::node_count;
use kb_label::Process;
use kb_node::{LabelKind, NodeId};
use mkb_model::Selection;
use mkb_rules::State;

/// Where the process stands among the living, or would stand.
pub(crate) fn place_of(state: &State, p: &Process) -> usize {
    match state.log().processes().binary_search(p) {
        Ok(place) => place,
        Err(place) => place,
    }
}

/// The same, where the process is first looked for at a place, the one before it and the one behind it: a fork moves each other
/// process by one place at most.
pub(crate) fn place_near(state: &State, p: &Process, place: usize) -> usize {
    let living = state.log().processes();
    let first = place.saturating_sub(1);
    for near in first..first.saturating_add(3) {
        match living.get(near) {
            Some(process) if *process == *p => return near,
            _ => {}
        }
    }
    place_of(state, p)
}

/// The same, where the process is first looked for at a place.
pub(crate) fn place_from(state: &State, p: &Process, place: usize) -> usize {
    match state.log().processes().get(place) {
        Some(process) if *process == *p => place,
        _ => place_of(state, p),
    }
}

/// The cost of the process at this place among the living: the sizes of its equations and its constraints, and of its rules where
/// the selection counts them. It takes no memory, and goes over the nodes only where the state doesn't keep it at the place.
pub(crate) fn cost(state: &State, place: usize, p: &Process) -> u32
    requires { AreLimited state.now.problem.signature state.now.nodes }
    ensures { result ≡ cost state.now p.now }
{
    if let Some(kept) = state.kept_cost(place, p) {
        return kept;
    }
    let mut total = 0;
    for n in 0..node_count(state) {
        total += share(state, p, NodeId(n as u16));
    }
    total
}

// What a node adds to the cost of a process, at most 5,120: its size, as often as the process has it.
fn share(state: &State, p: &Process, n: NodeId) -> u32
    requires limited { AreLimited state.now.problem.signature state.now.nodes }
    requires there { n.0 < length state.now.nodes }
    ensures share { result ≡ role_count state.now p.now n.0 * node_size state.now n.0 }
    ensures most { result ≤ 5120 }
{
    role_count(state, p, n) * node_size(state, n.0)
}

/// The sizes of both sides of a node's pair together, at most 1,024.
pub(crate) fn node_size(state: &State, n: u16) -> u32
    requires { n < length state.now.nodes }
    ensures size { result ≡ node_size state.now n }
    ensures most { result ≤ 1024 }
{
    state.nodes().size(NodeId(n))
}

// How often the node counts for the process: as an equation, as a constraint in each direction, and as a rule.
fn role_count(state: &State, p: &Process, n: NodeId) -> u32
    requires { n.0 < length state.now.nodes }
    ensures { result ≡ role_count state.now p.now n.0 }
{
    count(state.has_label(p, n, LabelKind::E))
        + count(state.has_label(p, n, LabelKind::C0))
        + count(state.has_label(p, n, LabelKind::C1))
        + rule_count(state, p, n)
}

// How often the node counts as a rule of the process, in each direction, where the selection counts rules.
fn rule_count(state: &State, p: &Process, n: NodeId) -> u32
    requires { n.0 < length state.now.nodes }
    ensures { result ≡ rule_count state.now.settings.selection state.now p.now n.0 }
{
    match state.settings().selection {
        Selection::Stated => 0,
        Selection::Size => {
            count(state.has_label(p, n, LabelKind::R0))
                + count(state.has_label(p, n, LabelKind::R1))
        }
    }
}

// One, where the process has the node so.
fn count(has: bool) -> u32
    ensures { result ≡ one_if has }
{
    if has { 1 } else { 0 }
}
