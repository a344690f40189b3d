// Taking a job.
ghost use Rattle.std.specs.Prelude.{◌≡◌, ◌≤◌, ◌+◌, ◌++◌, ◌∷◌, [], Some, None, IsFalse, IfOk, IsSome, OnOk, OnErr, vec_len, vec_capacity};
ghost use Rattle.mkb_model.specs.Verdicts.{verdict};
ghost use Rattle.mkb_model.specs.DueJobs.{first_job};
ghost use Rattle.mkb_model.specs.declared.entry.Ticket.{Ticket};
ghost use Rattle.mkb_model.specs.declared.entry.Entry.{Entry};
ghost use Rattle.mkb_board.specs.Boards.{has_halt};
ghost use Rattle.mkb_board.specs.Choosing.{jobs_of};
ghost use Rattle.mkb_board.specs.Listed.{IsAgenda};
ghost use Rattle.mkb_board.specs.Takes.{IsTakenBy, take_entry};

use crate::answers::Taken;
use crate::board::Board;
use crate::snapshots::snapshot;
use crate::takable::has_first;
use kb_jobs::Snapshot;
use kb_node::Job;
use kb_term::Memory;
use mkb_agenda::agenda_of;
use mkb_model::{Entry, Ticket};
use mkb_pick::Agenda;
use mkb_rules::State;
use std::alloc::{AllocError, Global};

impl Board {
    /// Takes the first job for a worker: the least due job that clashes with none in flight. It asks the agenda, which goes over the
    /// processes once; where none is kept it is made anew.
    ///
    /// Where it gives no ticket it changes nothing, and wants no memory: where a verdict stands, where a halt was made, and where no
    /// job may be taken.
    ///
    /// # Errors
    ///
    /// Want of memory, where a job may be taken; the board is then as before.
    pub fn take(&mut self, alloc: Global, worker: u8) -> Result<Taken, Memory>
        requires least { 1 ≤ worker }
        requires most { worker ≤ 16 }
        ensures ok { IfOk result (IsTakenBy self.old self.new worker) }
        ensures err { OnErr result (self.new ≡ self.old) }
        ensures undecided { OnErr result (verdict self.old.plain ≡ None) }
        ensures unhalted { OnErr result (IsFalse (has_halt self.old.journal)) }
        ensures takable { OnErr result (IsSome (first_job self.old.plain)) }
    {
        if let Some(verdict) = self.verdict {
            return Ok(Taken::Over(verdict));
        }
        if self.halted {
            return Ok(Taken::Halted);
        }
        match self.first_job(alloc)? {
            None => Ok(Taken::Idle(self.flight.len())),
            Some(job) => self.take_job(alloc, worker, &job),
        }
    }
}

impl Board {
    // The first job, if there is one. Where no memory is found to tell it, whether there is one is asked without any.
    fn first_job(&mut self, alloc: Global) -> Result<Option<Job>, Memory>
        ensures same { self.new ≡ self.old }
        ensures first { IfOk result (λ o. o ≡ first_job self.old.plain) }
        ensures takable { OnErr result (IsSome (first_job self.old.plain)) }
    {
        let flight = self.flight.as_slice();
        match offered(alloc, &self.state, &mut self.agenda, flight) {
            Ok(job) => Ok(job),
            Err(fault) if has_first(&self.state, flight) => Err(fault),
            Err(_) => Ok(None),
        }
    }

    // Takes this job, which is the first.
    fn take_job(&mut self, alloc: Global, worker: u8, job: &Job) -> Result<Taken, Memory>
        requires least { 1 ≤ worker }
        requires most { worker ≤ 16 }
        requires no_verdict { verdict self.old.plain ≡ None }
        requires no_halt { IsFalse (has_halt self.old.journal) }
        requires first { first_job self.old.plain ≡ Some job.now }
        ensures ok { IfOk result (IsTakenBy self.old self.new worker) }
        ensures err { OnErr result (self.new ≡ self.old) }
        ensures undecided { OnErr result (verdict self.old.plain ≡ None) }
        ensures unhalted { OnErr result (IsFalse (has_halt self.old.journal)) }
        ensures takable { OnErr result (IsSome (first_job self.old.plain)) }
    {
        let snapshot = snapshot(alloc, &self.state, &mut self.shelf, job)?;
        reserve(&mut self.flight, &mut self.journal)?;
        let ticket = Ticket {
            number: self.taken + 1,
            worker,
            job: *job,
        };
        self.journal.push(entry_of(&ticket)).unwrap();
        self.flight.push(ticket).unwrap();
        self.taken += 1;
        Ok(Taken::Job(ticket, snapshot))
    }
}

// What the agenda of the state offers first beside the jobs in flight. It is made anew where it isn't kept.
fn offered(
    alloc: Global,
    state: &State,
    agenda: &mut Option<Agenda>,
    flight: &[Ticket],
) -> Result<Option<Job>, Memory>
    requires { IsAgenda state.now agenda.old }
    ensures kept { IsAgenda state.now agenda.new }
    ensures first { IfOk result (λ o. o ≡ first_job (record state.now { flight = flight.now })) }
{
    let flying = jobs_of(alloc, flight)?;
    match agenda {
        Some(agenda) => Ok(agenda.next(flying.as_slice())),
        None => {
            let made = agenda_of(alloc, state)?;
            let first = made.next(flying.as_slice());
            *agenda = Some(made);
            Ok(first)
        }
    }
}

// The jobs of the tickets.
fn jobs_of(alloc: Global, flight: &[Ticket]) -> Result<Vec<Job>, AllocError>
    ensures { IfOk result (λ jobs. jobs.items ≡ jobs_of flight.now) }
{
    let mut jobs = Vec::with_capacity(alloc, flight.len())?;
    for ticket in flight {
        jobs.push(ticket.job)?;
    }
    Ok(jobs)
}

// Makes room for a ticket, and for the entries of its take, of the end of each ticket and of a halt.
fn reserve(flight: &mut Vec<Ticket>, journal: &mut Vec<Entry>) -> Result<(), AllocError>
    ensures flight { flight.new.items ≡ flight.old.items }
    ensures journal { journal.new.items ≡ journal.old.items }
    ensures flight_len { vec_len flight.new ≡ vec_len flight.old }
    ensures journal_len { vec_len journal.new ≡ vec_len journal.old }
    ensures flight_room { OnOk result (vec_len flight.old + 1 ≤ vec_capacity flight.new) }
    ensures journal_room { OnOk result (vec_len journal.old + vec_len flight.old + 3 ≤ vec_capacity journal.new) }
    ensures kept { vec_capacity journal.old ≤ vec_capacity journal.new }
{
    flight.reserve(1)?;
    let count = match flight.len().checked_add(3) {
        Some(count) => count,
        None => return Err(AllocError),
    };
    journal.reserve(count)
}

// The entry of the ticket's take.
fn entry_of(ticket: &Ticket) -> Entry
    ensures { result ≡ take_entry ticket.now }
{
    Entry::Take {
        worker: ticket.worker,
        ticket: ticket.number,
        job: ticket.job,
    }
}
