// The work by rounds.
ghost use Rattle.std.specs.Prelude.{◌≡◌, ◌≤◌, [], None, OnOk, OnErr};
ghost use Rattle.mkb_model.specs.Verdicts.{verdict};
ghost use Rattle.mkb_board.specs.Boards.{IsLegalBoard};
ghost use Rattle.work_crew.specs.Alone.{IsSameRun};
ghost use Rattle.mkb_rounds.specs.Ends.{EndsByRounds};
ghost use Rattle.mkb_rounds.specs.Playing.{HaveEnded, IsBetweenRounds, IsLeftWith};

use crate::ending::end_tickets;
use crate::stealing::{Team, work_round};
use crate::taking::take_tickets;
use kb_io::Gate;
use kb_term::Memory;
use mkb_board::Board;
use std::alloc::Global;
use std::thread::Threads;
use std::time::Clock;
use work_crew::Crew;

/// So many workers, each in a thread of its own, complete the board by rounds until a verdict stands. The caller takes the tickets
/// of a round as worker 1; the threads work them, and are joined; the caller ends them in the order of their numbers, and works
/// what no thread did. So the journal is the same for every number of workers. One worker works all tickets in the caller's
/// thread, and so do several where the tickets of the last round took too little time to be worth threads.
///
/// Between its take and its work each ticket's worker asks the gate, until it lets pass or was asked 100,000,000 times.
///
/// Where no memory is found before a verdict stands the tickets in flight are given back, and the board is halted.
pub fn work_rounds<G: Gate, R: Threads + Clock + Sync>(
    rt: &R,
    alloc: Global,
    board: Board,
    workers: u8,
    gate: &G,
) -> Crew
    requires least { 1 ≤ workers }
    requires most { workers ≤ 16 }
    requires opening { board.journal ≡ [] }
    ensures rounds { EndsByRounds board.plain.problem board.plain.settings result }
    ensures legal { IsLegalBoard result.board }
{
    let unplayed = board.journal().is_empty();
    prove!(unplayed);
    let mut board = board;
    play_rounds(rt, gate, &mut board, Team::new(alloc, workers));
    let out_of_memory = board.verdict().is_none();
    if out_of_memory {
        board.halt();
    }
    Crew {
        board,
        out_of_memory,
    }
}

// Rounds are played until a verdict stands or no memory is found.
#[tactic(auto, using(crate::proofs::Ended::ended_between, crate::proofs::Ended::ended_left))]
fn play_rounds<G: Gate, R: Threads + Clock + Sync>(
    rt: &R,
    gate: &G,
    board: &mut Board,
    mut team: Team,
)
    requires { IsBetweenRounds board.old }
    ensures ended { HaveEnded board.new }
    ensures same { IsSameRun board.old board.new }
{
    for _ in 0..u64::MAX {
        if board.verdict().is_some() {
            return;
        }
        if play_round(rt, gate, board, &mut team).is_err() {
            return;
        }
    }
}

// One round: its tickets are taken, worked and ended.
fn play_round<G: Gate, R: Threads + Clock + Sync>(
    rt: &R,
    gate: &G,
    board: &mut Board,
    team: &mut Team,
) -> Result<(), Memory>
    requires between { IsBetweenRounds board.old }
    requires undecided { verdict board.old.plain ≡ None }
    ensures ok { OnOk result (IsBetweenRounds board.new) }
    ensures err { OnErr result (IsLeftWith board.new []) }
    ensures same { IsSameRun board.old board.new }
{
    let round = take_tickets(team.alloc, gate, board)?;
    let outcomes = work_round(rt, gate, round.as_slice(), team);
    end_tickets(team.alloc, gate, board, round.as_slice(), outcomes)
}
