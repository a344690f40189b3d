// The work of several workers on one board, each in a thread of its own.
ghost use Rattle.std.specs.Prelude.{◌≡◌, ◌+◌, ◌<◌, ◌≤◌, ◌-◌, ◌*◌, ◌||◌, [], ℕ, true, false, All, IfOk, MatchResult, is_none};
ghost use Rattle.std.specs.List.{list_any};
ghost use Rattle.std.specs.Thread.{IsSync};
ghost use Rattle.kb_jobs.specs.Working.{IsReadable, ProposesBy};
ghost use Rattle.mkb_model.specs.Journals.{worker_of};
ghost use Rattle.turn_lock.specs.Places.{first_seat};
ghost use Rattle.work_crew.specs.Alone.{IsSameRun};
ghost use Rattle.work_crew.specs.Together.{EndsTogether, HasJoined, Holds, HoldsNext, IsSameSeat, Rests, is_leaving as leaves, purpose};

use crate::alone::Crew;
use crate::bell::Bell;
use crate::gates::ask;
use crate::shared::{Assignment, Next, Shared, Then};
use crate::timing::has_taken;
use cert_pool::CertPool;
use kb_io::Gate;
use kb_jobs::{FamilySearcher, Searcher, work_by};
use kb_term::Memory;
use mkb_board::Board;
use mkb_model::{Entry, Proposed};
use std::alloc::Global;
use std::sync::Wait;
use std::thread::{Threads, join};
use std::time::{Clock, Duration, Instant};
use turn_lock::{Backoff, Seat, Turns};

/// How often the sleep of a worker that rests is doubled: the longest is of 480 microseconds, so that with what the system adds it is
/// below a millisecond.
const DOUBLINGS: u32 = 5;

/// The number of the first worker.
const FIRST: u8 = 1;

/// How long a worker that leaves the board to others sleeps before it looks for the first time, in microseconds.
const NAP: u64 = 400;

/// How often the sleep of such a worker is doubled: the longest is of 6.4 milliseconds.
const NAP_DOUBLINGS: u32 = 4;

/// The fewest entries made within a first nap that show that jobs take no longer than turns, so that one more worker would be of no
/// use; within longer ones as many more.
const CROWD: u64 = 3;

/// Work that takes less than this, in microseconds, is short: a turn takes about as long, for which the board comes to another processor.
const SHORT: u64 = 50;

/// The most naps of a worker between two of its tickets.
const NAPS: u32 = 8;

// What the workers share: the lock of the board, what wakes them at the end, and where memory comes from. The board stands in a box, so
// that a turn moves no more than that.
struct Workplace {
    alloc: Global,
    turns: Turns<Box<Shared>>,
    bell: Bell,
}

// What came of the work on a ticket, and whether the gate wants to know what the process of the next one costs.
#[derive(Drop)]
struct Worked {
    proposal: Result<Proposed, Memory>,
    was_short: bool,
    with_cost: bool,
}

// At a turn: takes the first job, if there is one.
fn take_one<G: Gate, R: Wait>(
    rt: &R,
    place: &Workplace,
    gate: &G,
    seat: &mut Seat<Box<Shared>>,
) -> Next
    requires { Rests place.now.turns seat.old }
    ensures rests { Rests place.now.turns seat.new }
    ensures same { IsSameSeat seat.old seat.new }
    ensures holds { HoldsNext place.now.turns seat.new result }
{
    let with_cost = gate.wants_cost();
    let worker = seat.worker();
    let mut board = place.turns.enter(rt, seat);
    let next = board.next(place.alloc, worker, with_cost);
    place.turns.leave(seat, board);
    next
}

// At a turn: ends the ticket with what its job proposed, and takes the next; but rests first where others wanted the turn too, or where
// its work was short. The first worker never rests so, that one is always at work.
fn end_one<R: Wait>(
    rt: &R,
    place: &Workplace,
    seat: &mut Seat<Box<Shared>>,
    assignment: &Assignment,
    worked: Worked,
) -> Next
    requires rests { Rests place.now.turns seat.old }
    requires holds { Holds place.now.turns seat.old assignment.now }
    requires worked { IfOk worked.proposal (ProposesBy assignment.now.snapshot) }
    ensures rests { Rests place.now.turns seat.new }
    ensures same { IsSameSeat seat.old seat.new }
    ensures holds { HoldsNext place.now.turns seat.new result }
{
    let Worked {
        proposal,
        was_short,
        with_cost,
    } = worked;
    let is_first = seat.worker() == FIRST;
    let mut board = place.turns.enter(rt, seat);
    let then = if (was_short || seat.has_waited()) && !is_first {
        Then::Rest
    } else {
        Then::Take { with_cost }
    };
    let next = board.end_and_next(place.alloc, assignment, proposal, then);
    place.turns.leave(seat, board);
    next
}

// Outside the turn: works the ticket, once the gate lets pass. The first worker's work counts as long without a look at the clock, since
// nobody asks whether it was short.
fn work_one<G: Gate, S: Searcher, R: Wait + Clock>(
    rt: &R,
    alloc: Global,
    gate: &G,
    by: &S,
    assignment: &Assignment,
) -> Worked
    requires { IsReadable assignment.now.snapshot }
    ensures { IfOk result.proposal (ProposesBy assignment.now.snapshot) }
{
    ask(gate, &assignment.moment);
    let begun = if assignment.ticket.worker == FIRST {
        None
    } else {
        Instant::now(rt).ok()
    };
    let proposal = work_by(rt, alloc, &assignment.snapshot, by);
    Worked {
        proposal,
        was_short: !has_taken(rt, &begun, SHORT),
        with_cost: gate.wants_cost(),
    }
}

// Waits, without the turn, until the journal has more entries than these. It rests at least once, and where it finds no job again it
// goes on as it rested last.
fn wait_for_more<R: Wait>(
    rt: &R,
    place: &Workplace,
    seat: &mut Seat<Box<Shared>>,
    entries: u64,
    idle: &mut Backoff,
)
    requires { Rests place.now.turns seat.old }
    ensures rests { Rests place.now.turns seat.new }
    ensures same { IsSameSeat seat.old seat.new }
{
    for _ in rt.forever() {
        idle.rest(rt);
        if place.turns.seen(seat) > entries {
            return;
        }
    }
}

// Leaves the board to others, without the turn: for a nap, and for more and longer ones as long as the others make entries fast. The
// end of the run ends a nap.
fn leave_to_others<R: Wait>(rt: &R, place: &Workplace, seat: &mut Seat<Box<Shared>>)
    requires { Rests place.now.turns seat.old }
    ensures rests { Rests place.now.turns seat.new }
    ensures same { IsSameSeat seat.old seat.new }
{
    let mut entries = place.turns.seen(seat);
    for nap in 0..NAPS {
        let doublings = nap.min(NAP_DOUBLINGS);
        if !place.bell.nap(rt, Duration::from_micros(NAP << doublings)) {
            return;
        }
        let before = entries;
        entries = place.turns.seen(seat);
        if entries.saturating_sub(before) < CROWD << doublings {
            return;
        }
    }
}

// One worker: it takes tickets, asks the gate, works and ends them, until a verdict stands, a halt was made or it finds no memory.
// Where others want the turn, or its work was short, it rests between a ticket and the next for as long as they make entries fast, so
// that where jobs are shorter than turns few workers are at work.
fn serve<G: Gate, S: Searcher, R: Wait + Clock>(
    rt: &R,
    place: &Workplace,
    gate: &G,
    by: &S,
    mut seat: Seat<Box<Shared>>,
) -> Seat<Box<Shared>>
    requires { Rests place.now.turns seat }
    ensures rests { Rests place.now.turns result }
    ensures same { IsSameSeat seat result }
{
    let mut idle = Backoff::new(DOUBLINGS);
    let mut next = take_one(rt, place, gate, &mut seat);
    for _ in rt.forever() {
        match &next {
            Next::Work(assignment) => {
                idle.reset();
                let worked = work_one(rt, place.alloc, gate, by, assignment);
                next = end_one(rt, place, &mut seat, assignment, worked);
            }
            Next::Wait(entries) => {
                wait_for_more(rt, place, &mut seat, *entries, &mut idle);
                next = take_one(rt, place, gate, &mut seat);
            }
            Next::Rest => {
                leave_to_others(rt, place, &mut seat);
                next = take_one(rt, place, gate, &mut seat);
            }
            Next::End => break,
        }
    }
    place.bell.ring();
    seat
}

// The first seat's worker, in the thread of the call, and so many more, each in a thread of its own.
fn serve_all<G: Gate, S: Searcher, R: Threads + Wait + Clock + Sync>(
    rt: &R,
    place: &Workplace,
    gate: &G,
    by: &S,
    mut first: Seat<Box<Shared>>,
    more: u8,
) -> Seat<Box<Shared>>
    requires rests { Rests place.now.turns first }
    requires first { first.view.worker ≡ 1 }
    requires room { first.view.drawn + more ≤ 16 }
    ensures rests { Rests place.now.turns result }
    ensures first { result.view.worker ≡ 1 }
    ensures drawn { result.view.drawn ≡ first.view.drawn + more }
    ensures kept { (n : ℕ) → HasJoined first n → HasJoined result n }
    ensures joined { (n : ℕ) → first.view.drawn < n → n ≤ result.view.drawn → HasJoined result n }
{
    if more == 0 {
        return serve(rt, place, gate, by, first);
    }
    let other = place.turns.split(&mut first);
    let (other, mut first) = join(
        rt,
        || -> Seat<Box<Shared>>
            requires { Rests place.now.turns other }
            ensures rests { Rests place.entry.now.turns result }
            ensures same { IsSameSeat other result }
        { serve(rt, place, gate, by, other) },
        || -> Seat<Box<Shared>>
            requires { IsSync R.row × Rests place.now.turns first × (first.view.worker ≡ 1) × (first.view.drawn + (more - 1) ≤ 16) × (0 < more) }
            ensures rests { Rests place.entry.now.turns result }
            ensures first { result.view.worker ≡ 1 }
            ensures drawn { result.view.drawn ≡ first.view.drawn + (more - 1) }
            ensures kept { (n : ℕ) → HasJoined first n → HasJoined result n }
            ensures joined { (n : ℕ) → first.view.drawn < n → n ≤ result.view.drawn → HasJoined result n }
        { serve_all(rt, place, gate, by, first, more - 1) },
    );
    place.turns.join(&mut first, other);
    first
}

// The lock of the board, and its first seat.
//
// # Errors
//
// Want of memory for the lock or its box; the board comes back unchanged.
fn opened(alloc: Global, board: Board) -> Result<(Turns<Box<Shared>>, Seat<Box<Shared>>), Board>
    requires { board.journal ≡ [] }
    ensures { MatchResult result (λ made. (made.0.problem ≡ purpose board.plain) × (made.1 ≡ first_seat made.0)) (λ back. back ≡ board) }
{
    let shared = match Box::new(alloc, Shared::new(board)) {
        Ok(shared) => shared,
        Err(refused) => return Err(refused.value.into_board()),
    };
    match Turns::new(alloc, shared) {
        Ok(made) => Ok(made),
        Err(shared) => Err(Box::into_inner(shared).into_board()),
    }
}

// The board on which so many workers have ended; untouched where there is no memory for the lock.
fn worked_on<G: Gate, S: Searcher, R: Threads + Wait + Clock + Sync>(
    rt: &R,
    alloc: Global,
    board: Board,
    workers: u8,
    gate: &G,
    by: &S,
) -> Board
    requires least { 1 ≤ workers }
    requires most { workers ≤ 16 }
    requires opening { board.journal ≡ [] }
    ensures same { IsSameRun board result }
    ensures numbered { All (λ e. worker_of e ≤ workers) result.journal }
{
    let (turns, first) = match opened(alloc, board) {
        Ok(made) => made,
        Err(board) => return board,
    };
    let place = Workplace {
        alloc,
        turns,
        bell: Bell::new(),
    };
    let first = serve_all(rt, &place, gate, by, first, workers - 1);
    let Workplace {
        alloc: _,
        turns,
        bell: _,
    } = place;
    Box::into_inner(turns.close(first)).into_board()
}

// Whether a ticket was given back or a halt made.
fn is_left(journal: &[Entry]) -> bool
    ensures { result ≡ list_any leaves journal.now }
{
    journal.iter().any(|entry| matches!(entry, Entry::Abandon { .. } | Entry::Halt))
}

/// So many workers, of numbers from 1, each in a thread of its own, complete the board: each takes the first job, works it while
/// others have the turn, and ends its ticket, again and again, until a verdict stands. Where a worker finds no memory it gives
/// its ticket back, halts the board and ends; so do the others at the halt. Between a take and the work each asks the gate, until
/// it lets pass or was asked 100,000,000 times. A worker that finds no job waits, first by yielding and then asleep, until the
/// journal has another entry. One that had to wait for its turn, or whose work was short, leaves the board to the others for a while,
/// the first worker excepted. The workers share what they find of the family of orders.
///
/// Where there is no memory for the lock or its box the board comes back with a halt alone.
pub fn work_together<G: Gate, R: Threads + Wait + Clock + Sync>(
    rt: &R,
    alloc: Global,
    board: Board,
    workers: u8,
    gate: &G,
) -> Crew
    requires least { 1 ≤ workers }
    requires most { workers ≤ 16 }
    requires opening { board.journal ≡ [] }
    ensures { EndsTogether board.plain.problem board.plain.settings workers result }
{
    match CertPool::new(alloc) {
        Ok(pool) => work_together_by(rt, alloc, board, workers, gate, &pool),
        Err(Memory) => {
            let anew = FamilySearcher::new(alloc);
            work_together_by(rt, alloc, board, workers, gate, &anew)
        }
    }
}

/// The same, where the searcher is asked for the orders of the tickets that orient.
pub fn work_together_by<G: Gate, S: Searcher, R: Threads + Wait + Clock + Sync>(
    rt: &R,
    alloc: Global,
    board: Board,
    workers: u8,
    gate: &G,
    by: &S,
) -> Crew
    requires least { 1 ≤ workers }
    requires most { workers ≤ 16 }
    requires opening { board.journal ≡ [] }
    ensures { EndsTogether board.plain.problem board.plain.settings workers result }
{
    let mut board = worked_on(rt, alloc, board, workers, gate, by);
    let undecided = board.verdict().is_none();
    if undecided {
        board.halt();
    }
    let left = is_left(board.journal());
    Crew {
        board,
        out_of_memory: undecided || left,
    }
}
