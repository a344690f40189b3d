// Threads that work the tickets of a round.
ghost use Rattle.std.specs.Prelude.{◌≡◌, ◌<◌, ◌++◌, ◌⊎◌, Some, Contains, IfOk, IfSome};
ghost use Rattle.std.specs.Thread.{IsSync};
ghost use Rattle.kb_jobs.specs.Working.{IsReadable, ProposesBy};
ghost use Rattle.mkb_rounds.specs.Outcomes.{AreReadable, AreRight};

use crossbeam_deque::{Steal, Stealer, Worker};
use kb_io::Gate;
use kb_jobs::work;
use kb_term::Memory;
use mkb_model::Proposed;
use std::alloc::{AllocError, Global};
use std::ops::Range;
use std::thread::{Threads, join};
use std::time::{Clock, Instant};
use work_crew::{Assignment, ask, has_taken};

/// A round whose work takes less than so many microseconds is not worth its threads: to make and join one takes about a hundred.
const WORTH: u64 = 500;

/// What a thread made of a ticket: its place in the round, and what its job proposes.
#[derive(Drop)]
pub(crate) struct Outcome {
    pub(crate) place: usize,
    pub(crate) worked: Result<Proposed, Memory>,
}

/// Who works the tickets of rounds, and where memory comes from.
#[derive(Drop)]
pub(crate) struct Team {
    pub(crate) alloc: Global,
    /// How many threads there are at most, the caller's among them.
    workers: u8,
    /// Whether the last round that threads could share was worth them. Then they share the next from its first ticket on.
    is_busy: bool,
}

impl Team {
    /// So many workers, which share the first round.
    pub(crate) fn new(alloc: Global, workers: u8) -> Team {
        Team {
            alloc,
            workers,
            is_busy: true,
        }
    }
}

// Where threads find work: the places of the round's tickets that none has stolen yet, and where memory comes from.
#[derive(Drop)]
struct Bench {
    alloc: Global,
    places: Stealer<usize>,
}

/// Works a ticket, after the gate lets pass or was asked 100,000,000 times.
pub(crate) fn work_one<G: Gate>(
    alloc: Global,
    gate: &G,
    assignment: &Assignment,
) -> Result<Proposed, Memory>
    requires { IsReadable assignment.now.snapshot }
    ensures { IfOk result (ProposesBy assignment.now.snapshot) }
{
    ask(gate, &assignment.moment);
    work(alloc, &assignment.snapshot)
}

/// What the team makes of the tickets of a round. A ticket may have no outcome, or more than one.
/// One worker makes nothing of a round here, nor do many of a round of one ticket: the caller works what has no outcome.
///
/// Threads share the round from its first ticket on where the last round was worth it. Else the caller works tickets by itself, until
/// that has taken so long that the round is worth threads for what is left.
pub(crate) fn work_round<G: Gate, R: Threads + Clock + Sync>(
    rt: &R,
    gate: &G,
    round: &[Assignment],
    team: &mut Team,
) -> Vec<Outcome>
    requires { AreReadable round.now }
    ensures { AreRight round.now result.items }
{
    if round.len().min(team.workers as usize) <= 1 {
        return Vec::new(team.alloc);
    }
    let begun = Instant::now(rt).ok();
    let outcomes = if team.is_busy {
        Vec::new(team.alloc)
    } else {
        work_short(rt, team.alloc, gate, round, &begun)
    };
    let outcomes = share_rest(rt, gate, round, team, outcomes);
    team.is_busy = has_taken(rt, &begun, WORTH);
    outcomes
}

// What the caller makes of the first tickets of a round, until they have taken so long that the round is worth threads.
fn work_short<G: Gate, R: Clock>(
    rt: &R,
    alloc: Global,
    gate: &G,
    round: &[Assignment],
    begun: &Option<Instant>,
) -> Vec<Outcome>
    requires { AreReadable round.now }
    ensures { AreRight round.now result.items }
{
    let mut outcomes = Vec::new(alloc);
    for place in 0..round.len() {
        if has_taken(rt, begun, WORTH) {
            break;
        }
        work_place(alloc, gate, round, place, &mut outcomes);
    }
    outcomes
}

// These outcomes, of the first tickets, and what threads make of the others. One ticket is left to the caller.
#[tactic(auto, using(crate::proofs::Playing::right_joined))]
fn share_rest<G: Gate, R: Threads + Sync>(
    rt: &R,
    gate: &G,
    round: &[Assignment],
    team: &Team,
    outcomes: Vec<Outcome>,
) -> Vec<Outcome>
    requires readable { AreReadable round.now }
    requires right { AreRight round.now outcomes.items }
    ensures { AreRight round.now result.items }
{
    let left = outcomes.len()..round.len();
    let threads = left.len().min(team.workers as usize);
    if threads <= 1 {
        return outcomes;
    }
    let alloc = team.alloc;
    let Ok(queue) = queue_of(alloc, left) else {
        return outcomes;
    };
    let Ok(places) = queue.stealer() else {
        return outcomes;
    };
    let others = steal_together(rt, gate, &Bench { alloc, places }, round, threads);
    joined(outcomes, others)
}

// A queue of these places, in order, or of the first of them where there is no memory for more.
fn queue_of(alloc: Global, places: Range<usize>) -> Result<Worker<usize>, AllocError> {
    let mut queue = Worker::new_fifo(alloc, places.len())?;
    for place in places {
        if queue.push(place).is_err() {
            break;
        }
    }
    Ok(queue)
}

// So many threads steal tickets and work them.
#[tactic(auto, using(crate::proofs::Playing::right_joined))]
fn steal_together<G: Gate, R: Threads + Sync>(
    rt: &R,
    gate: &G,
    bench: &Bench,
    round: &[Assignment],
    threads: usize,
) -> Vec<Outcome>
    requires { AreReadable round.now }
    ensures { AreRight round.now result.items }
{
    if threads <= 1 {
        return steal_all(gate, bench, round);
    }
    let (mine, others) = join(
        rt,
        || -> Vec<Outcome>
            requires { AreReadable round.now }
            ensures { AreRight round.entry.now result.items }
        { steal_all(gate, bench, round) },
        || -> Vec<Outcome>
            requires { IsSync R.row × AreReadable round.now × (1 < threads) }
            ensures { AreRight round.entry.now result.items }
        { steal_together(rt, gate, bench, round, threads - 1) },
    );
    joined(mine, others)
}

// The outcomes of both threads, or the first's where there is no memory for all.
fn joined(mut mine: Vec<Outcome>, mut others: Vec<Outcome>) -> Vec<Outcome>
    ensures { (result.items ≡ mine.items ++ others.items) ⊎ (result.items ≡ mine.items) }
{
    mine.append(&mut others).ok();
    mine
}

// One thread steals tickets and works them, until none is left.
fn steal_all<G: Gate>(gate: &G, bench: &Bench, round: &[Assignment]) -> Vec<Outcome>
    requires { AreReadable round.now }
    ensures { AreRight round.now result.items }
{
    let mut outcomes = Vec::new(bench.alloc);
    for _ in 0..u64::MAX {
        match bench.places.steal() {
            Steal::Success(place) => work_place(bench.alloc, gate, round, place, &mut outcomes),
            Steal::Retry => {}
            Steal::Empty => break,
        }
    }
    outcomes
}

// Works the ticket at this place. Its outcome is lost where there is no memory for it.
fn work_place<G: Gate>(
    alloc: Global,
    gate: &G,
    round: &[Assignment],
    place: usize,
    outcomes: &mut Vec<Outcome>,
)
    requires readable { AreReadable round.now }
    requires right { AreRight round.now outcomes.old.items }
    ensures { AreRight round.now outcomes.new.items }
{
    if let Some(assignment) = round.get(place) {
        let worked = work_one(alloc, gate, assignment);
        outcomes.push(Outcome { place, worked }).ok();
    }
}

/// The first outcome of the ticket at this place, if there is one.
pub(crate) fn take_outcome(
    outcomes: &mut Vec<Outcome>,
    place: usize,
) -> Option<Result<Proposed, Memory>>
    ensures one { IfSome result (λ worked. Contains outcomes.old.items (record { place = place; worked = worked })) }
    ensures kept { (o : Outcome) → Contains outcomes.new.items o → Contains outcomes.old.items o }
{
    let index = outcomes.iter().position(|outcome| outcome.place == place)?;
    let outcome = outcomes.remove(index);
    Some(outcome.worked)
}
