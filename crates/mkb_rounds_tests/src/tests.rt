ghost use Rattle.std.specs.Prelude.{◌≡◌, ◌≤◌, []};

use kb_io::{HoldGate, OpenGate};
use kb_label::{Process, Verdict};
use kb_syntax::{parse_problem, spelled_problems_are_within_limits};
use mkb_board::Board;
use mkb_model::{Entry, Settings};
use mkb_rounds::{rounds_have_one_journal, work_rounds};
use std::alloc::Global;
use std::mem::drop;
use std::process::Abort;
use std::thread::Threads;
use std::time::Clock;
use work_crew::Crew;

const AXIOMS_OF_GROUPS: &str =
    "(VAR x y z)(RULES m(e,x) == x m(i(x),x) == e m(m(x,y),z) == m(x,m(y,z)))";

/// The numbers of an entry.
#[derive(Clone, Copy, Debug, PartialEq, Eq)]
enum Event {
    Take(u8, u64),
    Commit(u64),
    Drop(u64),
    Abandon(u64),
    Halt,
}

fn event_of(entry: &Entry) -> Event {
    match entry {
        Entry::Take { worker, ticket, .. } => Event::Take(*worker, *ticket),
        Entry::Commit { ticket, .. } => Event::Commit(*ticket),
        Entry::Drop { ticket, .. } => Event::Drop(*ticket),
        Entry::Abandon { ticket, .. } => Event::Abandon(*ticket),
        Entry::Halt => Event::Halt,
    }
}

/// The board of the problem that the text spells, before any entry.
fn started(rt: &impl Abort, alloc: Global, text: &str, budget: u32) -> Board
    ensures { result.journal ≡ [] }
{
    spelled_problems_are_within_limits();
    let problem = match parse_problem(alloc, text.as_bytes()) {
        Ok(problem) => problem,
        Err(_) => panic!(rt; "no problem"),
    };
    Board::start(alloc, problem, Settings::stated(budget)).expect(rt, "memory")
}

/// The problem's board on which so many workers have ended their rounds.
fn played<R: Abort + Threads + Clock + Sync>(
    rt: &R,
    alloc: Global,
    text: &str,
    budget: u32,
    workers: u8,
) -> Crew
    requires least { 1 ≤ workers }
    requires most { workers ≤ 16 }
{
    let board = started(rt, alloc, text, budget);
    work_rounds(rt, alloc, board, workers, &OpenGate)
}

/// Whether both journals have the same events.
fn are_same(one: &[Entry], other: &[Entry]) -> bool {
    one.len() == other.len()
        && one
            .iter()
            .zip(other.iter())
            .all(|(a, b)| event_of(a) == event_of(b))
}

#[test]
fn the_last_ticket_of_a_round_stays_in_flight_at_a_verdict(rt: HostRuntime) {
    let wanted = [
        Event::Take(1, 1),
        Event::Commit(1),
        Event::Take(1, 2),
        Event::Take(1, 3),
        Event::Commit(2),
        Event::Commit(3),
        Event::Take(1, 4),
        Event::Take(1, 5),
        Event::Commit(4),
    ];
    for workers in 1..3u8 {
        let crew = played(&rt, rt.alloc(), "(RULES a == b)", 20_000, workers);
        assert!(rt; !crew.out_of_memory);
        let mut entries = crew.board.journal().iter();
        for event in wanted.iter() {
            assert!(rt; matches!(entries.next(), Some(entry) if event_of(entry) == *event));
        }
        assert!(rt; entries.next().is_none());
        let first = Process::from_bits(&[false]);
        assert!(rt; crew.board.verdict() == Some(Verdict::Complete(first)));
        assert!(rt; crew.board.commits() == 4);
        drop(crew);
    }
}

/// Whether so many workers make the journal of the board, of the axioms of groups, anew.
fn make_it_again<R: Abort + Threads + Clock + Sync>(
    rt: &R,
    alloc: Global,
    board: &Board,
    workers: u8,
) -> bool
    requires least { 1 ≤ workers }
    requires most { workers ≤ 16 }
{
    let crew = played(rt, alloc, AXIOMS_OF_GROUPS, 120, workers);
    let is_same = !crew.out_of_memory && are_same(board.journal(), crew.board.journal());
    drop(crew);
    is_same
}

#[test]
fn every_number_of_workers_makes_one_journal(rt: HostRuntime) {
    let alone = played(&rt, rt.alloc(), AXIOMS_OF_GROUPS, 120, 1);
    assert!(rt; !alone.out_of_memory);
    assert!(rt; make_it_again(&rt, rt.alloc(), &alone.board, 2));
    assert!(rt; make_it_again(&rt, rt.alloc(), &alone.board, 4));
    assert!(rt; make_it_again(&rt, rt.alloc(), &alone.board, 16));
    drop(alone);
    rounds_have_one_journal();
}

#[test]
fn two_workers_hold_two_tickets_at_once(rt: HostRuntime) {
    let gate = HoldGate::new(2, 3);
    let board = started(&rt, rt.alloc(), "(RULES a == b)", 20_000);
    let crew = work_rounds(&rt, rt.alloc(), board, 2, &gate);
    assert!(rt; !crew.out_of_memory);
    assert!(rt; gate.met());
    drop(crew);
}

#[test]
fn one_worker_never_meets_another(rt: HostRuntime) {
    let gate = HoldGate::new(2, 3);
    let board = started(&rt, rt.alloc(), "(RULES a == b)", 20_000);
    let crew = work_rounds(&rt, rt.alloc(), board, 1, &gate);
    assert!(rt; !crew.out_of_memory);
    assert!(rt; !gate.met());
    drop(crew);
}
