// Who is worked on: the processes that are active and awake.
ghost use Rattle.std.specs.Prelude.{◌≡◌, ◌+◌, ◌<◌, ◌≤◌, [], ◌∷◌, length, insert, remove, filter, not, Option, IfOk, IfErr, IsTrue, vec_len, vec_capacity, None, false, ℕ};
ghost use Rattle.kb_label.specs.Names.{root, has, add, minus, relabel, IsInNameOrder};
ghost use Rattle.kb_label.specs.declared.verdict.Reason.{Reason};
ghost use Rattle.mkb_model.specs.Plain.{is_over};
ghost use Rattle.mkb_rules.specs.Applying.{applied_as};
ghost use Rattle.mkb_board.specs.Working.{processes_in, still_working, completed_by, IsShort};

use crate::choosing::has_equation;
use crate::cost::{place_near, place_of};
use kb_label::{MAX_BITS, Process};
use mkb_model::Proposed;
use mkb_rules::{Applied, State};
use std::alloc::{AllocError, Global};

/// The most processes that are active and awake.
pub(crate) const MOST_AWAKE: usize = 64;

/// A process with a place among the living at which what is kept of it is looked up first.
#[derive(Clone, Copy)]
pub(crate) struct Placed {
    pub(crate) place: usize,
    pub(crate) process: Process,
}

/// The first process alone, with room for one more than may be active and awake.
pub(crate) fn first_alone(alloc: Global) -> Result<Vec<Placed>, AllocError>
    ensures items { IfOk result (λ working. processes_in working.items ≡ root ∷ []) }
    ensures room { IfOk result (λ working. MOST_AWAKE + 1 ≤ vec_capacity working) }
{
    let mut working = Vec::with_capacity(alloc, MOST_AWAKE + 1)?;
    working.push(Placed {
        place: 0,
        process: Process::root(),
    })?;
    Ok(working)
}

/// Those who are active and awake after a commit, of those who were before. It takes no memory.
pub(crate) fn follow(
    state: &State,
    working: &mut Vec<Placed>,
    proposal: &Proposed,
    applied: Applied,
)
    requires in_order { IsInNameOrder (processes_in working.old.items) }
    requires few { vec_len working.old ≤ MOST_AWAKE }
    requires room { MOST_AWAKE + 1 ≤ vec_capacity working.old }
    requires short { applied ≡ applied_as None → IsShort proposal.now }
    ensures items { (o : Option Reason) → applied ≡ applied_as o → processes_in working.new.items ≡ still_working state.now o proposal.now (processes_in working.old.items) }
    ensures room { vec_capacity working.old ≤ vec_capacity working.new }
{
    match (applied, proposal) {
        (Applied::Over(_), _) => keep_going(state, working),
        (Applied::Done, Proposed::Closed { process }) => {
            if has_equation(state, place_of(state, process), process) {
                take_out(working, process);
            }
        }
        (Applied::Done, Proposed::Both { process, .. }) => fork(state, working, process),
        _ => {}
    }
}

/// The process that a commit completes, if it does. It takes no memory.
pub(crate) fn completed_by(state: &State, proposal: &Proposed, applied: Applied) -> Option<Process>
    ensures { (o : Option Reason) → applied ≡ applied_as o → result ≡ completed_by state.now o proposal.now }
{
    match (applied, proposal) {
        (Applied::Done, Proposed::Closed { process }) => {
            if has_equation(state, place_of(state, process), process) {
                None
            } else {
                Some(*process)
            }
        }
        _ => None,
    }
}

// Those who have not given up.
fn keep_going(state: &State, working: &mut Vec<Placed>)
    ensures items { processes_in working.new.items ≡ filter (λ p. not (is_over state.now p)) (processes_in working.old.items) }
    ensures room { vec_capacity working.old ≤ vec_capacity working.new }
{
    working.retain(|placed| !state.is_over(&placed.process));
}

// Both children come in the place of their parent, where it is there, and the places of all are looked up.
fn fork(state: &State, working: &mut Vec<Placed>, parent: &Process)
    requires in_order { IsInNameOrder (processes_in working.old.items) }
    requires few { vec_len working.old ≤ MOST_AWAKE }
    requires room { MOST_AWAKE + 1 ≤ vec_capacity working.old }
    requires short { length parent.now < MAX_BITS }
    ensures items { processes_in working.new.items ≡ relabel parent.now (processes_in working.old.items) }
    ensures room { vec_capacity working.old ≤ vec_capacity working.new }
{
    if let Ok(at) = place_in(working.as_slice(), parent) {
        working.remove(at);
        put_in(working, parent.child(true), 0);
        put_in(working, parent.child(false), 0);
    }
    look_up(state, working);
}

// The places of all are looked up.
fn look_up(state: &State, working: &mut Vec<Placed>)
    ensures items { processes_in working.new.items ≡ processes_in working.old.items }
    ensures room { vec_capacity working.old ≤ vec_capacity working.new }
{
    for i in 0..working.len() {
        let process = working[i].process;
        let place = place_near(state, &process, working[i].place);
        working[i] = Placed { place, process };
    }
}

/// Takes the process out, where it is there.
pub(crate) fn take_out(working: &mut Vec<Placed>, process: &Process)
    requires { IsInNameOrder (processes_in working.old.items) }
    ensures items { processes_in working.new.items ≡ minus (processes_in working.old.items) (process.now ∷ []) }
    ensures room { vec_capacity working.old ≤ vec_capacity working.new }
{
    if let Ok(at) = place_in(working.as_slice(), process) {
        working.remove(at);
    }
}

/// Puts a process that stands at a place among the living where it belongs by name, where it isn't there.
pub(crate) fn put_in(working: &mut Vec<Placed>, process: Process, place: usize)
    requires in_order { IsInNameOrder (processes_in working.old.items) }
    requires room { vec_len working.old < vec_capacity working.old }
    ensures items { processes_in working.new.items ≡ add process (processes_in working.old.items) }
    ensures len { vec_len working.new ≤ vec_len working.old + 1 }
    ensures room { vec_capacity working.old ≤ vec_capacity working.new }
{
    if let Err(at) = place_in(working.as_slice(), &process) {
        working.insert(at, Placed { place, process }).unwrap();
    }
}

// Where a process stands among those who are worked on, or where it would have to be put.
fn place_in(working: &[Placed], process: &Process) -> Result<usize, usize>
    requires { IsInNameOrder (processes_in working.now) }
    ensures present { IfOk result (λ _. add process.now (processes_in working.now) ≡ processes_in working.now) }
    ensures there { IfOk result (λ at. at < length working.now) }
    ensures left { IfOk result (λ at. processes_in (remove working.now at) ≡ minus (processes_in working.now) (process.now ∷ [])) }
    ensures has { IfOk result (λ _. IsTrue (has (processes_in working.now) process.now)) }
    ensures within { IfErr result (λ at. at ≤ length working.now) }
    ensures absent { IfErr result (λ at. (place : ℕ) → processes_in (insert working.now at (record { place = place; process = process.now })) ≡ add process.now (processes_in working.now)) }
    ensures none { IfErr result (λ _. has (processes_in working.now) process.now ≡ false) }
{
    working.binary_search_by(|placed| placed.process.cmp(process))
}
