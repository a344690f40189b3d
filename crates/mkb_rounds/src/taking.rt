// Taking the tickets of a round.
ghost use Rattle.std.specs.Prelude.{◌≡◌, ◌+◌, ◌<◌, true, false, [], None, IfOk, OnOk, OnErr, length};
ghost use Rattle.mkb_model.specs.Verdicts.{verdict};
ghost use Rattle.work_crew.specs.Alone.{IsSameRun};
ghost use Rattle.mkb_rounds.specs.Playing.{IsBetweenRounds, IsEndingRound, IsLeftWith, IsTakingRound};

use kb_io::Gate;
use kb_term::Memory;
use mkb_board::{Board, Taken};
use std::alloc::Global;
use work_crew::Assignment;

/// How many tickets a round takes at most.
const MAX_TICKETS: usize = 8;

/// The worker that takes the tickets of all rounds.
const TAKER: u8 = 1;

/// Takes the tickets of a round: first jobs, until there is none, or there are eight tickets.
///
/// # Errors
///
/// Want of memory; its tickets are then given back.
pub(crate) fn take_tickets<G: Gate>(
    alloc: Global,
    gate: &G,
    board: &mut Board,
) -> Result<Vec<Assignment>, Memory>
    requires between { IsBetweenRounds board.old }
    requires undecided { verdict board.old.plain ≡ None }
    ensures ok { IfOk result (λ round. IsEndingRound board.new round.items) }
    ensures err { OnErr result (IsLeftWith board.new []) }
    ensures same { IsSameRun board.old board.new }
{
    let mut round = Vec::new(alloc);
    match take_all(alloc, gate, board, &mut round) {
        Ok(()) => Ok(round),
        Err(Memory) => {
            give_back(board, round.as_slice());
            Err(Memory)
        }
    }
}

// Takes tickets as long as the round may have more. Where there is no memory those that were taken stay in flight.
fn take_all<G: Gate>(
    alloc: Global,
    gate: &G,
    board: &mut Board,
    round: &mut Vec<Assignment>,
) -> Result<(), Memory>
    requires between { IsBetweenRounds board.old }
    requires undecided { verdict board.old.plain ≡ None }
    requires empty { round.old.items ≡ [] }
    ensures ok { OnOk result (IsEndingRound board.new round.new.items) }
    ensures err { OnErr result (IsLeftWith board.new round.new.items) }
    ensures same { IsSameRun board.old board.new }
{
    for _ in 0..MAX_TICKETS {
        if !take_one(alloc, gate, board, round)? {
            return Ok(());
        }
    }
    Ok(())
}

// Takes one ticket more, if there is a first job. Whether there was one.
fn take_one<G: Gate>(
    alloc: Global,
    gate: &G,
    board: &mut Board,
    round: &mut Vec<Assignment>,
) -> Result<bool, Memory>
    requires taking { IsTakingRound board.old round.old.items }
    requires few { length round.old.items < 8 }
    ensures more { IfOk result (λ took. took ≡ true → IsTakingRound board.new round.new.items) }
    ensures count { IfOk result (λ took. took ≡ true → length round.new.items ≡ length round.old.items + 1) }
    ensures last { IfOk result (λ took. took ≡ false → IsEndingRound board.new round.new.items) }
    ensures err { OnErr result (IsLeftWith board.new round.new.items) }
    ensures same { IsSameRun board.old board.new }
{
    round.reserve(1)?;
    match board.take(alloc, TAKER)? {
        Taken::Job(ticket, snapshot) => {
            let assignment = Assignment::new(board, ticket, snapshot, gate.wants_cost());
            round.push(assignment).unwrap();
            Ok(true)
        }
        Taken::Idle(_) => Ok(false),
        Taken::Over(_) => unreachable!(),
        Taken::Halted => unreachable!(),
    }
}

/// Gives these tickets back, which are those in flight.
pub(crate) fn give_back(board: &mut Board, tickets: &[Assignment])
    requires { IsLeftWith board.old tickets.now }
    ensures left { IsLeftWith board.new [] }
    ensures same { IsSameRun board.old board.new }
{
    for assignment in tickets {
        board.abandon(&assignment.ticket);
    }
}
