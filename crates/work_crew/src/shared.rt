// The board in a lock: the calls that a worker makes on it while it has the turn.
ghost use Rattle.std.specs.Prelude.{◌≡◌, ◌≤◌, [], IfOk, OnOk, OnErr};
ghost use Rattle.kb_jobs.specs.Working.{ProposesBy};
ghost use Rattle.mkb_board.specs.Boards.{IsLegalBoard};
ghost use Rattle.mkb_board.specs.Takes.{IsTakenBy};
ghost use Rattle.work_crew.specs.Alone.{IsSameRun};
ghost use Rattle.work_crew.specs.Moments.{assigned};
ghost use Rattle.work_crew.specs.Together.{asks_cost, EndsAndGoesOn, Grows, IsAfter, IsEnded, HoldsOn, HoldsTaken, IsGivenBack, IsHalted, IsHeldSince, IsNext, TellsMoment};

use crate::moments::moment_of;
use kb_io::Moment;
use kb_jobs::Snapshot;
use kb_term::{Memory, Problem};
use mkb_board::{Board, Taken};
use mkb_model::{Entry, Proposed, Settings, Ticket};
use std::alloc::Global;
use std::marker::Model;
use turn_lock::{Counted, Turned};

/// As long as the journal has room for fewer entries than this, a ticket may be taken. No vector is so long that it comes to this.
const ROOM: u64 = 1 << 60;

/// A ticket in the hands of a worker, with what its job reads, and how the board stood as it was taken.
#[derive(Drop)]
pub struct Assignment {
    pub ticket: Ticket,
    pub snapshot: Snapshot,
    pub moment: Moment,
}

impl Assignment {
    /// The ticket that was just taken on the board, with what its job reads, and what its process costs where that is asked for.
    pub fn new(board: &Board, ticket: Ticket, snapshot: Snapshot, with_cost: bool) -> Assignment
        ensures { result ≡ assigned with_cost board.now.plain ticket snapshot }
    {
        let moment = moment_of(board, &ticket, with_cost);
        Assignment {
            ticket,
            snapshot,
            moment,
        }
    }
}

/// What a worker does next.
#[derive(Drop)]
pub(crate) enum Next {
    /// It works this ticket.
    Work(Assignment),
    /// No job may be taken now. It waits until the journal has more entries than these.
    Wait(u64),
    /// Others want the turn. It rests, and then takes the first job.
    Rest,
    /// A verdict stands or a halt was made.
    End,
}

/// What a worker does once it has ended a ticket.
#[derive(Clone, Copy)]
pub(crate) enum Then {
    /// It takes the first job, and is told what its process costs where that is asked for.
    Take { with_cost: bool },
    /// It rests.
    Rest,
}

/// A board that is shared. Contracts see the board.
#[derive(Drop)]
pub(crate) struct Shared {
    board: Board,
    // how many entries the journal has
    entries: u64,
    // how many it has at most once each ticket in flight has ended and a halt was made
    room: u64,
}

impl Model for Shared {
    ghost use Rattle.std.specs.Prelude.{◌≡◌, ◌≤◌, ◌<◌, ◌^◌, length};
    ghost use Rattle.std.specs.Coded.{codes};
    ghost use Rattle.kb_term.specs.Coding.{coded_pair, coded_problem, coded_tree};
    ghost use Rattle.mkb_board.specs.Boards.{IsLegalBoard, Seen};
    ghost use Rattle.work_crew.specs.Room.{room_of};

    ghost Value = { Seen };

    ghost coded = { Prim.hlevel (codes, coded_pair, coded_tree, coded_problem) };

    ghost view = { λ s. s.board };

    ghost invariant = { λ s. IsLegalBoard s.board × (s.entries ≡ length s.board.journal) × (room_of s.board ≤ s.room) × (s.room ≤ 2 ^ 61) };
}

impl Counted for Shared {
    type Entry = Entry;

    ghost entries = { λ s. s.journal };

    fn count(&self) -> u64 {
        self.entries
    }
}

impl Turned for Shared {
    ghost use Rattle.mkb_model.specs.Journals.{worker_of};
    ghost use Rattle.work_crew.specs.Together.{purpose};

    type Problem = (Problem, Settings);

    ghost problem = { λ s. purpose s.plain };

    ghost budget = { λ s. s.plain.settings.budget };

    ghost worker = { worker_of };
}

impl Shared {
    /// A board before any entry, to be shared.
    pub(crate) fn new(board: Board) -> Shared
        requires { board.journal ≡ [] }
        ensures { result ≡ board }
    {
        let entries = board.journal().len() as u64;
        Shared {
            board,
            entries,
            room: 1,
        }
    }

    /// The board, which is shared no more.
    pub(crate) fn into_board(self) -> Board
        ensures { result ≡ self }
    {
        let Shared { board, .. } = self;
        board
    }

    /// What the worker does next: it takes the first job, if there is one, and is told what its process costs where that is asked for.
    /// Where there is no memory it halts the board.
    pub(crate) fn next(&mut self, alloc: Global, worker: u8, with_cost: bool) -> Next
        requires least { 1 ≤ worker }
        requires most { worker ≤ 16 }
        ensures next { IsNext self.old self.new worker result }
        ensures held { HoldsOn self.new worker result }
        ensures moment { TellsMoment with_cost self.new result }
        ensures legal { IsLegalBoard self.new }
        ensures grows { Grows worker self.old self.new }
        ensures same { IsSameRun self.old self.new }
    {
        match self.take(alloc, worker) {
            Ok(Taken::Job(ticket, snapshot)) => {
                Next::Work(Assignment::new(&self.board, ticket, snapshot, with_cost))
            }
            Ok(Taken::Idle(_)) => Next::Wait(self.entries),
            Ok(Taken::Over(_)) => Next::End,
            Ok(Taken::Halted) => Next::End,
            Err(Memory) => {
                self.halt();
                Next::End
            }
        }
    }

    /// Ends the ticket with what its job proposed.
    ///
    /// # Errors
    ///
    /// Want of memory, there or here; the ticket is then given back, and the board halted.
    pub(crate) fn end(
        &mut self,
        alloc: Global,
        assignment: &Assignment,
        worked: Result<Proposed, Memory>,
    ) -> Result<(), Memory>
        requires held { IsHeldSince self.old assignment.now }
        requires worked { IfOk worked (ProposesBy assignment.now.snapshot) }
        ensures ok { OnOk result (IsEnded self.old self.new assignment.now) }
        ensures err { OnErr result (IsGivenBack self.old self.new assignment.now.ticket) }
        ensures legal { IsLegalBoard self.new }
        ensures grows { Grows assignment.now.ticket.worker self.old self.new }
        ensures same { IsSameRun self.old self.new }
    {
        match worked {
            Ok(proposal) => self.end_with(alloc, assignment, proposal),
            Err(Memory) => {
                self.give_back(assignment);
                Err(Memory)
            }
        }
    }

    /// Ends the ticket with what its job proposed, and tells what its worker does next, which is as said. Where there is no memory to end
    /// it, it is given back, the board halted, and the worker ends.
    pub(crate) fn end_and_next(
        &mut self,
        alloc: Global,
        assignment: &Assignment,
        worked: Result<Proposed, Memory>,
        then: Then,
    ) -> Next
        requires least { 1 ≤ assignment.now.ticket.worker }
        requires most { assignment.now.ticket.worker ≤ 16 }
        requires held { IsHeldSince self.old assignment.now }
        requires worked { IfOk worked (ProposesBy assignment.now.snapshot) }
        ensures turn { EndsAndGoesOn self.old self.new assignment.now then result }
        ensures held { HoldsOn self.new assignment.now.ticket.worker result }
        ensures moment { TellsMoment (asks_cost then) self.new result }
        ensures legal { IsLegalBoard self.new }
        ensures grows { Grows assignment.now.ticket.worker self.old self.new }
        ensures same { IsSameRun self.old self.new }
    {
        match self.end(alloc, assignment, worked) {
            Ok(()) => self.go_on(alloc, assignment.ticket.worker, then),
            Err(Memory) => Next::End,
        }
    }

    // What a worker does next: it takes the first job, or rests, as said.
    fn go_on(&mut self, alloc: Global, worker: u8, then: Then) -> Next
        requires least { 1 ≤ worker }
        requires most { worker ≤ 16 }
        requires legal { IsLegalBoard self.old }
        ensures after { IsAfter self.old self.new worker then result }
        ensures held { HoldsOn self.new worker result }
        ensures moment { TellsMoment (asks_cost then) self.new result }
        ensures legal { IsLegalBoard self.new }
        ensures grows { Grows worker self.old self.new }
        ensures same { IsSameRun self.old self.new }
    {
        match then {
            Then::Take { with_cost } => self.next(alloc, worker, with_cost),
            Then::Rest => Next::Rest,
        }
    }

    // Ends the ticket with this proposal; where there is no memory, gives it back and halts the board.
    fn end_with(
        &mut self,
        alloc: Global,
        assignment: &Assignment,
        proposal: Proposed,
    ) -> Result<(), Memory>
        requires held { IsHeldSince self.old assignment.now }
        requires proposed { ProposesBy assignment.now.snapshot proposal }
        ensures ok { OnOk result (IsEnded self.old self.new assignment.now) }
        ensures err { OnErr result (IsGivenBack self.old self.new assignment.now.ticket) }
        ensures legal { IsLegalBoard self.new }
        ensures grows { Grows assignment.now.ticket.worker self.old self.new }
        ensures same { IsSameRun self.old self.new }
    {
        match self.finish(alloc, assignment, proposal) {
            Ok(()) => Ok(()),
            Err(Memory) => {
                self.give_back(assignment);
                Err(Memory)
            }
        }
    }

    // Takes the first job for a worker.
    fn take(&mut self, alloc: Global, worker: u8) -> Result<Taken, Memory>
        requires least { 1 ≤ worker }
        requires most { worker ≤ 16 }
        ensures ok { IfOk result (IsTakenBy self.old self.new worker) }
        ensures err { OnErr result (self.new ≡ self.old) }
        ensures held { IfOk result (HoldsTaken self.new worker) }
        ensures legal { IsLegalBoard self.new }
    {
        if self.room >= ROOM {
            return Err(Memory);
        }
        let taken = self.board.take(alloc, worker);
        self.entries = self.board.journal().len() as u64;
        self.room += 2;
        taken
    }

    // Ends the ticket with this proposal. Where there is no memory nothing is changed.
    fn finish(
        &mut self,
        alloc: Global,
        assignment: &Assignment,
        proposal: Proposed,
    ) -> Result<(), Memory>
        requires held { IsHeldSince self.old assignment.now }
        requires proposed { ProposesBy assignment.now.snapshot proposal }
        ensures ok { OnOk result (IsEnded self.old self.new assignment.now) }
        ensures err { OnErr result (self.new ≡ self.old) }
        ensures legal { IsLegalBoard self.new }
        ensures grows { Grows assignment.now.ticket.worker self.old self.new }
        ensures same { IsSameRun self.old self.new }
    {
        let ended = match self.board.finish(alloc, assignment.ticket, proposal) {
            Ok(_) => Ok(()),
            Err(_) => Err(Memory),
        };
        self.entries = self.board.journal().len() as u64;
        ended
    }

    // Gives the ticket back, and halts the board. It takes no memory.
    fn give_back(&mut self, assignment: &Assignment)
        requires held { IsHeldSince self.old assignment.now }
        ensures back { IsGivenBack self.old self.new assignment.now.ticket }
        ensures legal { IsLegalBoard self.new }
        ensures grows { Grows assignment.now.ticket.worker self.old self.new }
        ensures same { IsSameRun self.old self.new }
    {
        self.board.abandon(&assignment.ticket);
        self.board.halt();
        self.entries = self.board.journal().len() as u64;
    }

    // Halts the board. It takes no memory.
    fn halt(&mut self)
        ensures halted { IsHalted self.old self.new }
        ensures legal { IsLegalBoard self.new }
    {
        self.board.halt();
        self.entries = self.board.journal().len() as u64;
    }
}
