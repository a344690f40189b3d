// The work of one worker.
ghost use Rattle.std.specs.Prelude.{◌≡◌, [], IsSome, IfOk, OnOk, OnErr};
ghost use Rattle.mkb_model.specs.Verdicts.{verdict};
ghost use Rattle.mkb_board.specs.Boards.{IsLegalBoard};
ghost use Rattle.work_crew.specs.Alone.{IsInTurn, IsSameRun, IsStopped, IsJustTaken, CommitsOnce, ComesTo, EndsAlone};

use crate::gates::ask;
use crate::moments::moment_of;
use kb_io::Gate;
use kb_jobs::{Snapshot, work};
use kb_term::Memory;
use mkb_board::{Board, Taken};
use mkb_model::Ticket;
use std::alloc::Global;

/// A board on which the work has ended.
#[derive(Drop)]
pub struct Crew {
    pub board: Board,
    /// A worker found no memory before a verdict stood.
    pub out_of_memory: bool,
}

/// What a turn came to.
#[derive(Drop)]
enum Turn {
    /// A verdict stands.
    Over,
    /// A ticket was taken, and what its job proposed was committed.
    Went,
}

/// One worker takes the first job, works it and ends its ticket, again and again, until a verdict stands. Where it finds no
/// memory it gives its ticket back, halts the board and ends. Between a take and the work it asks the gate, until it lets pass
/// or was asked 100,000,000 times.
pub fn work_alone<G: Gate>(alloc: Global, board: Board, gate: &G) -> Crew
    requires { board.journal ≡ [] }
    ensures alone { EndsAlone board.plain.problem board.plain.settings result }
    ensures legal { IsLegalBoard result.board }
{
    let mut board = board;
    board.journal_is_legal();
    let out_of_memory = take_turns(alloc, &mut board, gate).is_err();
    if out_of_memory {
        board.halt();
    }
    board.journal_is_legal();
    Crew {
        board,
        out_of_memory,
    }
}

// Turns are taken until a verdict stands. Each commits once, so there are no more of them than commits are left.
fn take_turns<G: Gate>(alloc: Global, board: &mut Board, gate: &G) -> Result<(), Memory>
    requires { IsInTurn board.old }
    ensures ok { OnOk result (IsInTurn board.new) }
    ensures over { OnOk result (IsSome (verdict board.new.plain)) }
    ensures err { OnErr result (IsStopped board.new) }
    ensures same { IsSameRun board.old board.new }
{
    'turns: loop {
        match take_turn(alloc, board, gate)? {
            Turn::Went => {}
            Turn::Over => return Ok(()),
        }
    }
}

// One ticket is taken, worked and ended, unless a verdict stands.
fn take_turn<G: Gate>(alloc: Global, board: &mut Board, gate: &G) -> Result<Turn, Memory>
    requires { IsInTurn board.old }
    ensures ok { OnOk result (IsInTurn board.new) }
    ensures turn { IfOk result (ComesTo board.old board.new) }
    ensures err { OnErr result (IsStopped board.new) }
    ensures same { IsSameRun board.old board.new }
{
    board.journal_is_legal();
    match board.take(alloc, 1)? {
        Taken::Job(ticket, snapshot) => {
            ask(gate, &moment_of(board, &ticket, gate.wants_cost()));
            work_ticket(alloc, board, ticket, &snapshot)?;
            Ok(Turn::Went)
        }
        Taken::Over(_) => Ok(Turn::Over),
        Taken::Idle(_) => unreachable!(),
        Taken::Halted => unreachable!(),
    }
}

// The ticket is worked and ended.
fn work_ticket(
    alloc: Global,
    board: &mut Board,
    ticket: Ticket,
    snapshot: &Snapshot,
) -> Result<(), Memory>
    requires { IsJustTaken board.old ticket snapshot.now }
    ensures ok { OnOk result (IsInTurn board.new) }
    ensures once { OnOk result (CommitsOnce board.old board.new) }
    ensures err { OnErr result (IsStopped board.new) }
    ensures same { IsSameRun board.old board.new }
{
    let proposal = match work(alloc, snapshot) {
        Ok(proposal) => proposal,
        Err(_) => {
            board.abandon(&ticket);
            return Err(Memory);
        }
    };
    match board.finish(alloc, ticket, proposal) {
        Ok(_) => Ok(()),
        Err(_) => {
            board.abandon(&ticket);
            Err(Memory)
        }
    }
}
