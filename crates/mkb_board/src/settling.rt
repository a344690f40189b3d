// Which processes fall asleep, and which wake, after a commit.
ghost use Rattle.std.specs.Prelude.{◌≡◌, ◌+◌, ◌-◌, ◌≤◌, [], false, length, option_map, Some, vec_len};
ghost use Rattle.std.specs.Fn.{iterate};
ghost use Rattle.std.specs.Ordering.{is_le};
ghost use Rattle.kb_label.specs.Names.{IsInNameOrder};
ghost use Rattle.mkb_model.specs.Jobs.{greatest, least};
ghost use Rattle.mkb_model.specs.Limits.{AreLimited};
ghost use Rattle.mkb_model.specs.Plain.{cost};
ghost use Rattle.mkb_model.specs.Invariants.{IsLabel};
ghost use Rattle.mkb_model.specs.Sleeping.{most_awake, process_cmp, rested, settle, waiting, with_one_asleep, with_one_awake, working as working_on};
ghost use Rattle.mkb_board.specs.Choosing.{costed_cmp, merged, ClosedRest};
ghost use Rattle.mkb_board.specs.Listed.{IsAgenda};
ghost use Rattle.mkb_board.specs.Working.{processes_in, IsWorking};

use crate::choosing::is_active;
use crate::cost::{cost, place_from, place_of};
use crate::working::{MOST_AWAKE, Placed, put_in, take_out};
use kb_label::{Living, Process};
use mkb_pick::Agenda;
use mkb_rules::State;
use std::cmp::Ordering;

/// A process with its cost, and with a place among the living at which what is kept of it is looked up first.
#[derive(Clone, Copy)]
pub(crate) struct Costed<'a> {
    pub(crate) cost: u32,
    pub(crate) place: usize,
    pub(crate) process: &'a Process,
}

/// While more than 64 processes are active and awake the one that costs most falls asleep; then, while fewer are, the active
/// sleeper that costs least wakes. It takes no memory.
pub(crate) fn settle(state: &mut State, working: &mut Vec<Placed>, agenda: &mut Option<Agenda>)
    requires rest { ClosedRest state.old }
    requires limited { AreLimited state.old.problem.signature state.old.nodes }
    requires in_order { IsInNameOrder state.old.living }
    requires sleepers { IsLabel state.old state.old.asleep }
    requires works { IsWorking state.old working.old }
    requires agenda { IsAgenda state.old agenda.old }
    ensures settled { state.new ≡ settle state.old }
    ensures works { IsWorking state.new working.new }
    ensures agenda { IsAgenda state.new agenda.new }
{
    rest(state, working, agenda);
    wake(state, working, agenda);
}

// The working process that costs most falls asleep, until at most 64 work.
fn rest(state: &mut State, working: &mut Vec<Placed>, agenda: &mut Option<Agenda>)
    requires limited { AreLimited state.old.problem.signature state.old.nodes }
    requires in_order { IsInNameOrder state.old.living }
    requires sleepers { IsLabel state.old state.old.asleep }
    requires works { IsWorking state.old working.old }
    requires agenda { IsAgenda state.old agenda.old }
    ensures rested { state.new ≡ record state.old { asleep = rested state.old } }
    ensures works { IsWorking state.new working.new }
    ensures agenda { IsAgenda state.new agenda.new }
{
    for _ in MOST_AWAKE..working.len() {
        rest_one(state, working, agenda);
    }
}

// The working process that costs most falls asleep, if there is one.
fn rest_one(state: &mut State, working: &mut Vec<Placed>, agenda: &mut Option<Agenda>)
    requires limited { AreLimited state.old.problem.signature state.old.nodes }
    requires in_order { IsInNameOrder state.old.living }
    requires sleepers { IsLabel state.old state.old.asleep }
    requires works { IsWorking state.old working.old }
    requires agenda { IsAgenda state.old agenda.old }
    ensures rests { state.new ≡ record state.old { asleep = with_one_asleep state.old state.old.asleep } }
    ensures works { IsWorking state.new working.new }
    ensures agenda { IsAgenda state.new agenda.new }
{
    state.log().are_forked();
    if let Some(process) = greatest_working(state, working.as_slice()) {
        state.put_to_sleep(&process);
        if let Some(agenda) = agenda {
            agenda.rest(&process);
        }
        take_out(working, &process);
    }
}

// The waiting process that costs least wakes, while fewer than 64 work.
fn wake(state: &mut State, working: &mut Vec<Placed>, agenda: &mut Option<Agenda>)
    requires rest { ClosedRest state.old }
    requires limited { AreLimited state.old.problem.signature state.old.nodes }
    requires in_order { IsInNameOrder state.old.living }
    requires sleepers { IsLabel state.old state.old.asleep }
    requires works { IsWorking state.old working.old }
    requires agenda { IsAgenda state.old agenda.old }
    ensures awake { state.new ≡ record state.old { asleep = iterate (with_one_awake state.old) (most_awake - length (working_on state.old state.old.asleep)) state.old.asleep } }
    ensures works { IsWorking state.new working.new }
    ensures agenda { IsAgenda state.new agenda.new }
{
    for _ in working.len()..MOST_AWAKE {
        if !wake_one(state, working, agenda) {
            return;
        }
    }
}

// The waiting process that costs least wakes, if there is one; whether there is.
fn wake_one(state: &mut State, working: &mut Vec<Placed>, agenda: &mut Option<Agenda>) -> bool
    requires rest { ClosedRest state.old }
    requires limited { AreLimited state.old.problem.signature state.old.nodes }
    requires in_order { IsInNameOrder state.old.living }
    requires sleepers { IsLabel state.old state.old.asleep }
    requires works { IsWorking state.old working.old }
    requires agenda { IsAgenda state.old agenda.old }
    requires few { vec_len working.old ≤ MOST_AWAKE }
    ensures wakes { state.new ≡ record state.old { asleep = with_one_awake state.old state.old.asleep } }
    ensures works { IsWorking state.new working.new }
    ensures agenda { IsAgenda state.new agenda.new }
    ensures len { vec_len working.new ≤ vec_len working.old + 1 }
    ensures none { result ≡ false → waiting state.old state.old.asleep ≡ [] }
{
    match least_waiting(state) {
        Some(process) => {
            state.wake(&process);
            if let Some(agenda) = agenda {
                agenda.wake(&process);
            }
            put_in(working, process, place_of(state, &process));
            true
        }
        None => false,
    }
}

// The process that costs most among these, and of equal costs the last by name.
fn greatest_working(state: &State, working: &[Placed]) -> Option<Process>
    requires { AreLimited state.now.problem.signature state.now.nodes }
    ensures { result ≡ greatest (process_cmp state.now) (processes_in working.now) }
{
    let mut best = None;
    for i in 0..working.len() {
        let placed = &working[i];
        best = Some(greater(best, with_cost(state, placed.place, &placed.process)));
    }
    process_in(&best)
}

// The active sleeper that costs least, and of equal costs the first by name.
fn least_waiting(state: &State) -> Option<Process>
    requires rest { ClosedRest state.now }
    requires limited { AreLimited state.now.problem.signature state.now.nodes }
    requires sleepers { IsLabel state.now state.now.asleep }
    ensures { result ≡ least (process_cmp state.now) (waiting state.now state.now.asleep) }
{
    let sleepers = state.sleepers();
    let mut best = None;
    let mut place = 0;
    let mut closed = 0;
    for i in 0..sleepers.len() {
        let process = &sleepers[i];
        place = place_from(state, process, place);
        if is_active(state, place, process, &mut closed) {
            best = Some(lesser(best, with_cost(state, place, process)));
        }
        place = place.saturating_add(1);
    }
    process_in(&best)
}

// The process at this place among the living with its cost.
fn with_cost<'a>(state: &State, place: usize, p: &'a Process) -> Costed<'a>
    requires { AreLimited state.now.problem.signature state.now.nodes }
    ensures cost { result.cost ≡ cost state.now p.now }
    ensures process { result.process.now ≡ p.now }
{
    Costed {
        cost: cost(state, place, p),
        place,
        process: p,
    }
}

// The process of the best, if there is one.
fn process_in(best: &Option<Costed>) -> Option<Process>
    ensures { result ≡ option_map (λ (c : Costed). c.process.now) best.now }
{
    match best {
        Some(costed) => Some(*costed.process),
        None => None,
    }
}

// The lesser by cost, then name.
fn lesser<'a>(best: Option<Costed<'a>>, next: Costed<'a>) -> Costed<'a>
    ensures { Some result ≡ merged costed_cmp best.entry (Some next.entry) }
{
    match best {
        None => next,
        Some(least) => {
            if is_at_most(&least, &next) {
                least
            } else {
                next
            }
        }
    }
}

// The greater by cost, then name.
fn greater<'a>(best: Option<Costed<'a>>, next: Costed<'a>) -> Costed<'a>
    ensures { Some result ≡ merged (λ one other. costed_cmp other one) best.entry (Some next.entry) }
{
    match best {
        None => next,
        Some(greatest) => {
            if is_at_most(&next, &greatest) {
                greatest
            } else {
                next
            }
        }
    }
}

// Whether the first costs less than the other, or as much and comes before it by name.
fn is_at_most(one: &Costed, other: &Costed) -> bool
    ensures { result ≡ is_le (costed_cmp one.now other.now) }
{
    match one.cost.cmp(&other.cost) {
        Ordering::Less => true,
        Ordering::Equal => one.process.cmp(other.process).is_le(),
        Ordering::Greater => false,
    }
}
