// Making the entries of a journal again.
ghost use Rattle.std.specs.Prelude.{◌≡◌, ◌++◌, ◌∷◌, ◌==◌, ◌↔◌, [], Contains, IfOk, IfErr, IsTrue, OnOk, List, MatchOption, filter, not};
ghost use Rattle.mkb_model.specs.Journals.{After};
ghost use Rattle.mkb_board.specs.Boards.{IsLegalBoard};
ghost use Rattle.mkb_board.specs.Held.{IsHeld};
ghost use Rattle.mkb_model.specs.declared.entry.Entry.{Entry as Entered};
ghost use Rattle.mkb_model.specs.declared.entry.Ticket.{Ticket as Taking};
ghost use Rattle.kb_journal.specs.declared.entry_line.EntryLine.{EntryLine as Read};
ghost use Rattle.kb_journal.specs.EntryLines.{line_of as line_of_entry, IsEntryLine};
ghost use Rattle.kb_journal.specs.Journals.{journal_of_board};
ghost use Rattle.kb_journal.specs.LineMoves.{IsAbandonOf, IsEndOf, IsTakeBy};
ghost use Rattle.kb_journal.specs.Replays.{HoldAll, IsAt, IsFinishOf, IsMadeOrNot, IsReplayFault, tickets_of};

use crate::entry_line::EntryLine;
use crate::entry_text::line_text;
use crate::fault::ReplayFault;
use crate::journal::JournalText;
use crate::lines::line_of;
use crate::ranges::is_within;
use kb_jobs::{Snapshot, work};
use kb_term::Memory;
use kb_text::is_word;
use mkb_board::{Board, Finished, Taken};
use mkb_model::{Proposed, Ticket};
use std::alloc::Global;

/// A ticket in flight, with what its job reads.
#[derive(Drop)]
pub(crate) struct Hand {
    pub ticket: Ticket,
    pub snapshot: Snapshot,
}

// The hand that holds the ticket with this number.
fn hand_with(hands: &[Hand], number: u64) -> Option<&Hand>
    ensures { MatchOption result ((t : Taking) → Contains (tickets_of hands.now) t → ¬ (t.number ≡ number)) (λ h. Contains hands.now h.now × (h.now.ticket.number ≡ number)) }
{
    for hand in hands {
        if hand.ticket.number == number {
            return Some(hand);
        }
    }
    None
}

// Lets the hand go that holds the ticket with this number.
fn let_go(hands: &mut Vec<Hand>, number: u64)
    ensures { hands.new.items ≡ filter (λ h. not (h.ticket.number == number)) hands.old.items }
{
    hands.retain(|hand| hand.ticket.number != number);
}

// Whether the line that a board made is this one: its numbers are within their ranges, and both are written alike.
fn is_same(alloc: Global, made: &EntryLine, line: &EntryLine) -> Result<bool, Memory>
    requires { IsEntryLine line.now }
    ensures { IfOk result (λ same. IsTrue same ↔ (made.now ≡ line.now)) }
{
    if !is_within(made) {
        return Ok(false);
    }
    let text = line_text(alloc, made)?;
    let wanted = line_text(alloc, line)?;
    Ok(is_word(&text, &wanted))
}

// Whether the last entry of the board has the line.
fn is_last(alloc: Global, board: &Board, line: &EntryLine) -> Result<bool, Memory>
    requires { IsEntryLine line.now }
    ensures legal { IsLegalBoard board.now }
    ensures same { IfOk result (λ same. (front : List Entered) (e : Entered) → board.now.journal ≡ front ++ e ∷ [] → IsTrue same ↔ (line_of_entry board.now.plain.nodes e ≡ line.now)) }
{
    let Some(entry) = board.journal().last() else {
        return Ok(false);
    };
    let made = line_of(alloc, board.nodes(), entry)?;
    is_same(alloc, &made, line)
}

// Takes the first job for the worker, and says whether the take has the line.
fn take_line(
    alloc: Global,
    board: &mut Board,
    hands: &mut Vec<Hand>,
    line: &EntryLine,
    worker: u8,
) -> Result<bool, Memory>
    requires held { HoldAll board.old hands.old.items }
    requires take { IsTakeBy worker line.now }
    requires form { IsEntryLine line.now }
    ensures { IfOk result (IsMadeOrNot board.old board.new hands.new.items line.now) }
{
    match board.take(alloc, worker)? {
        Taken::Job(ticket, snapshot) => {
            hands.push(Hand { ticket, snapshot })?;
            is_last(alloc, board, line)
        }
        Taken::Idle(_) | Taken::Over(_) | Taken::Halted => Ok(false),
    }
}

// What is handed back for want of memory is let go.
fn out_of_memory(_handed_back: (Ticket, Proposed)) -> Memory {
    Memory
}

// Works the ticket of a hand and ends it.
fn finish(alloc: Global, board: &mut Board, hand: &Hand) -> Result<Finished, Memory>
    requires { IsHeld board.old hand.now.ticket hand.now.snapshot }
    ensures { IfOk result (IsFinishOf board.old board.new hand.now.ticket) }
{
    let proposal = work(alloc, &hand.snapshot)?;
    match board.finish(alloc, hand.ticket, proposal) {
        Ok(finished) => Ok(finished),
        Err(handed_back) => Err(out_of_memory(handed_back)),
    }
}

// Works the ticket with this number and ends it, and says whether its end has the line.
fn end_line(
    alloc: Global,
    board: &mut Board,
    hands: &mut Vec<Hand>,
    line: &EntryLine,
    number: u64,
) -> Result<bool, Memory>
    requires held { HoldAll board.old hands.old.items }
    requires end { IsEndOf number line.now }
    requires form { IsEntryLine line.now }
    ensures { IfOk result (IsMadeOrNot board.old board.new hands.new.items line.now) }
{
    let Some(hand) = hand_with(hands, number) else {
        return Ok(false);
    };
    match finish(alloc, board, hand)? {
        Finished::Ended(_) => Ok(false),
        Finished::Dropped(_) | Finished::Committed(_) => {
            let_go(hands, number);
            is_last(alloc, board, line)
        }
    }
}

// Gives the ticket with this number back, if it is in flight.
fn abandon_line(board: &mut Board, hands: &mut Vec<Hand>, line: &EntryLine, number: u64) -> bool
    requires held { HoldAll board.old hands.old.items }
    requires abandon { IsAbandonOf number line.now }
    ensures { IsMadeOrNot board.old board.new hands.new.items line.now result }
{
    let Some(hand) = hand_with(hands, number) else {
        return false;
    };
    board.abandon(&hand.ticket);
    let_go(hands, number);
    true
}

// Makes a halt, if none was made.
fn halt_line(board: &mut Board, hands: &[Hand], line: &EntryLine) -> bool
    requires held { HoldAll board.old hands.now }
    requires halt { line.now ≡ EntryLine.Halt }
    ensures { IsMadeOrNot board.old board.new hands.now line.now result }
{
    let before = board.journal().len();
    board.halt();
    board.journal().len() > before
}

// Makes the entry that the line is of on the board, and says whether what the board makes has the line.
fn make(
    alloc: Global,
    board: &mut Board,
    hands: &mut Vec<Hand>,
    line: &EntryLine,
) -> Result<bool, Memory>
    requires held { HoldAll board.old hands.old.items }
    requires form { IsEntryLine line.now }
    ensures { IfOk result (IsMadeOrNot board.old board.new hands.new.items line.now) }
{
    match line {
        EntryLine::TakeReduce { worker, .. }
        | EntryLine::TakeOrient { worker, .. }
        | EntryLine::TakeOverlap { worker, .. }
        | EntryLine::TakeClose { worker, .. } => take_line(alloc, board, hands, line, *worker),
        EntryLine::Facts { ticket, .. }
        | EntryLine::Rewrite { ticket, .. }
        | EntryLine::Oriented { ticket, .. }
        | EntryLine::Fork { ticket }
        | EntryLine::Refused { ticket }
        | EntryLine::Deduced { ticket, .. }
        | EntryLine::Unjoined { ticket, .. }
        | EntryLine::Closed { ticket }
        | EntryLine::Over { ticket, .. }
        | EntryLine::Drop { ticket, .. } => end_line(alloc, board, hands, line, *ticket),
        EntryLine::Abandon { ticket } => Ok(abandon_line(board, hands, line, *ticket)),
        EntryLine::Halt => Ok(halt_line(board, hands, line)),
    }
}

// Makes each entry of a journal on a board on which none was made yet.
fn make_all(
    alloc: Global,
    board: &mut Board,
    hands: &mut Vec<Hand>,
    j: &JournalText,
) -> Result<(), ReplayFault>
    requires held { HoldAll board.old hands.old.items }
    requires start { IsAt j.now board.old [] }
    ensures end { OnOk result (IsAt j.now board.new j.now.lines) }
    ensures bad { IfErr result (IsReplayFault j.now) }
{
    let lines = j.lines();
    for k in 0..lines.len() {
        if !make(alloc, board, hands, &lines[k])? {
            return Err(ReplayFault::BadEntry(k as u64 + 1));
        }
    }
    Ok(())
}

/// Makes each entry of a journal on a board of its own, by the board's calls, and compares the line of what the board made with
/// the line of the text. It trusts no number of the text.
///
/// It takes the time of the run that the journal is of, with one worker.
///
/// # Errors
///
/// `BadEntry(n)` where the entry with the number n, from 1, is the first that the board, following those before it, doesn't
/// make: a legal journal has the lines before it, and none has them and its own. `Memory` for want of memory.
pub fn replay(alloc: Global, j: &JournalText) -> Result<Board, ReplayFault>
    ensures made { IfOk result (λ b. journal_of_board b ≡ j.now) }
    ensures legal { IfOk result (λ b. After j.now.problem j.now.settings b.journal b.plain) }
    ensures bad { IfErr result (IsReplayFault j.now) }
{
    let mut hands = Vec::new(alloc);
    let mut board = Board::start(alloc, j.problem().clone()?, j.settings())?;
    let made = make_all(alloc, &mut board, &mut hands, j);
    drop(hands);
    match made {
        Ok(()) => Ok(board),
        Err(fault) => {
            drop(board);
            Err(fault)
        }
    }
}
