// Ending the tickets of a round.
ghost use Rattle.std.specs.Prelude.{◌≡◌, ◌<◌, [], IfOk, OnOk, OnErr, Some, length, slice_get};
ghost use Rattle.kb_jobs.specs.Working.{ProposesBy};
ghost use Rattle.mkb_board.specs.Held.{IsHeld};
ghost use Rattle.work_crew.specs.Alone.{IsSameRun};
ghost use Rattle.work_crew.specs.Together.{IsEnded};
ghost use Rattle.mkb_rounds.specs.Playing.{IsBetweenRounds, IsEndingRound, IsLeftWith};
ghost use Rattle.mkb_rounds.specs.Outcomes.{AreReadable, AreRight};

use crate::stealing::{Outcome, take_outcome, work_one};
use crate::taking::give_back;
use kb_io::Gate;
use kb_term::Memory;
use mkb_board::Board;
use mkb_model::Proposed;
use std::alloc::Global;
use work_crew::Assignment;

/// Ends the tickets of a round in order, until a verdict stands.
///
/// # Errors
///
/// Want of memory; the tickets that are left are then given back.
pub(crate) fn end_tickets<G: Gate>(
    alloc: Global,
    gate: &G,
    board: &mut Board,
    round: &[Assignment],
    mut outcomes: Vec<Outcome>,
) -> Result<(), Memory>
    requires ending { IsEndingRound board.old round.now }
    requires right { AreRight round.now outcomes.items }
    ensures ok { OnOk result (IsBetweenRounds board.new) }
    ensures err { OnErr result (IsLeftWith board.new []) }
    ensures same { IsSameRun board.old board.new }
{
    for place in 0..round.len() {
        if board.verdict().is_some() {
            return Ok(());
        }
        let worked = worked_at(alloc, gate, round, place, &mut outcomes);
        if end_ticket(alloc, board, &round[place], worked).is_err() {
            give_back(board, &round[place..]);
            return Err(Memory);
        }
    }
    Ok(())
}

// What the ticket's job proposes: what a thread made of it, else what is worked here.
fn worked_at<G: Gate>(
    alloc: Global,
    gate: &G,
    round: &[Assignment],
    place: usize,
    outcomes: &mut Vec<Outcome>,
) -> Result<Proposed, Memory>
    requires inside { place < length round.now }
    requires readable { AreReadable round.now }
    requires right { AreRight round.now outcomes.old.items }
    ensures worked { (a : _) → slice_get round.now place ≡ Some a → IfOk result (ProposesBy a.snapshot) }
    ensures right { AreRight round.now outcomes.new.items }
{
    match take_outcome(outcomes, place) {
        Some(worked) => worked,
        None => work_one(alloc, gate, &round[place]),
    }
}

// Ends a ticket with what its job proposes.
fn end_ticket(
    alloc: Global,
    board: &mut Board,
    assignment: &Assignment,
    worked: Result<Proposed, Memory>,
) -> Result<(), Memory>
    requires held { IsHeld board.old assignment.now.ticket assignment.now.snapshot }
    requires worked { IfOk worked (ProposesBy assignment.now.snapshot) }
    ensures ok { OnOk result (IsEnded board.old board.new assignment.now) }
    ensures err { OnErr result (board.new ≡ board.old) }
{
    let proposal = worked?;
    match board.finish(alloc, assignment.ticket, proposal) {
        Ok(_) => Ok(()),
        Err(_) => Err(Memory),
    }
}
