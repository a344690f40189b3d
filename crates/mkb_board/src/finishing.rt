// Ending a ticket with what its job proposed.
ghost use Rattle.std.specs.Prelude.{◌≡◌, None, Contains, IsTrue, IsFalse, IfOk, IfErr, IfSome, OnErr};
ghost use Rattle.std.specs.Option.{option_map_or};
ghost use Rattle.mkb_model.specs.Plain.{Plain};
ghost use Rattle.mkb_model.specs.Verdicts.{verdict};
ghost use Rattle.mkb_model.specs.Effects.{is_dropped};
ghost use Rattle.mkb_model.specs.Jobs.{process_of};
ghost use Rattle.mkb_model.specs.declared.entry.Effect.TheVariants as effects;
ghost use Rattle.mkb_rules.specs.Applying.{applied_as};
ghost use Rattle.mkb_rules.specs.Named.{IsThere};
ghost use Rattle.kb_label.specs.declared.verdict.Reason.{Reason};
ghost use Rattle.std.specs.Prelude.{Option};
ghost use Rattle.mkb_agenda.specs.Following.{HasNodesOf, IsCommitOn};
ghost use Rattle.mkb_board.specs.Listed.{IsAgenda};
ghost use Rattle.mkb_board.specs.Takes.{IsProposalOf, IsFinishedBy};
ghost use Rattle.mkb_board.specs.declared.answers.Finished.TheVariants as finished;

use crate::answers::Finished;
use crate::board::{Board, land};
use crate::choosing;
use crate::settling::settle;
use crate::working::{completed_by, follow};
use kb_label::Process;
use kb_node::Job;
use mkb_agenda::{Commit, follow as agenda_follow};
use mkb_model::{Effect, Entry, Proposed, Ticket};
use mkb_pick::Agenda;
use mkb_rules::{Applied, State};
use std::alloc::Global;

impl Board {
    /// Ends a ticket with what its job proposed on the board from which it was taken. Where a verdict stands nothing is
    /// changed and no memory is taken; where nothing is left on which the proposal could act it is dropped; else it has its effect.
    ///
    /// # Errors
    ///
    /// Want of memory, which hands the ticket and the proposal back; the board is then as before.
    pub fn finish(
        &mut self,
        alloc: Global,
        ticket: Ticket,
        proposal: Proposed,
    ) -> Result<Finished, (Ticket, Proposed)>
        requires flying { Contains self.old.plain.flight ticket }
        requires proposed { IsProposalOf self.old ticket proposal }
        ensures ok { IfOk result (IsFinishedBy self.old self.new ticket proposal) }
        ensures back { IfErr result (λ e. e ≡ (ticket, proposal)) }
        ensures err { OnErr result (self.new ≡ self.old) }
        ensures undecided { OnErr result (verdict self.old.plain ≡ None) }
    {
        if let Some(verdict) = self.verdict {
            drop(proposal);
            return Ok(Finished::Ended(verdict));
        }
        match self.state.is_dropped(alloc, &proposal) {
            Err(_) => Err((ticket, proposal)),
            Ok(true) => {
                let finished = self.drop_ticket(&ticket, &proposal);
                drop(proposal);
                Ok(finished)
            }
            Ok(false) => match self.commit(alloc, &ticket, proposal) {
                Ok(applied) => Ok(Finished::Committed(applied)),
                Err(proposal) => Err((ticket, proposal)),
            },
        }
    }

    // Ends the ticket without an effect. It takes no memory.
    #[inline(never)]
    fn drop_ticket(&mut self, ticket: &Ticket, proposal: &Proposed) -> Finished
        requires flying { Contains self.old.plain.flight ticket.now }
        requires proposed { IsProposalOf self.old ticket.now proposal.now }
        requires no_verdict { verdict self.old.plain ≡ None }
        requires idle { IsTrue (is_dropped self.old.plain proposal.now) }
        ensures { IsFinishedBy self.old self.new ticket.now proposal.now result }
    {
        let process = process_of(&ticket.job);
        land(&mut self.flight, ticket.number);
        let entry = Entry::Drop {
            worker: ticket.worker,
            ticket: ticket.number,
            process,
        };
        self.journal.push(entry).unwrap();
        self.dropped += 1;
        Finished::Dropped(process)
    }

    // Ends the ticket with the effect of the proposal. Then processes fall asleep or wake, which takes no memory.
    #[inline(never)]
    fn commit(
        &mut self,
        alloc: Global,
        ticket: &Ticket,
        proposal: Proposed,
    ) -> Result<Applied, Proposed>
        requires flying { Contains self.old.plain.flight ticket.now }
        requires proposed { IsProposalOf self.old ticket.now proposal }
        requires no_verdict { verdict self.old.plain ≡ None }
        requires acts { IsFalse (is_dropped self.old.plain proposal) }
        ensures ok { IfOk result (λ applied. IsFinishedBy self.old self.new ticket.now proposal (finished.Committed applied)) }
        ensures back { IfErr result (λ e. e ≡ proposal) }
        ensures err { OnErr result (self.new ≡ self.old) }
    {
        let names = match self.state.effect_label(alloc, &proposal) {
            Ok(names) => names,
            Err(_) => return Err(proposal),
        };
        let made = match self.state.apply(alloc, &proposal) {
            Ok(made) => made,
            Err(_) => return Err(proposal),
        };
        let applied = made.applied;
        let commit = Commit {
            proposal: &proposal,
            applied,
            target: made.target,
            names: names.as_slice(),
        };
        keep_up(alloc, &mut self.agenda, &self.state, &commit);
        follow(&self.state, &mut self.working, &proposal, applied);
        let completed = completed_by(&self.state, &proposal, applied);
        settle(&mut self.state, &mut self.working, &mut self.agenda);
        self.verdict = choosing::verdict(&self.state, self.working.as_slice(), completed);
        land(&mut self.flight, ticket.number);
        let entry = Entry::Commit {
            worker: ticket.worker,
            ticket: ticket.number,
            effect: effect_of(applied, proposal),
        };
        self.journal.push(entry).unwrap();
        Ok(applied)
    }
}

// The agenda follows a commit, where it is kept and memory allows; else it isn't kept from here on.
fn keep_up(alloc: Global, agenda: &mut Option<Agenda>, state: &State, commit: &Commit)
    requires nodes { HasNodesOf state.now commit.now.proposal.now }
    requires target { commit.now.applied ≡ Applied.Done → IfSome commit.now.target (λ m. IsThere state.now m.0) }
    ensures { (b : Plain) → IsCommitOn b commit.now state.now → IsAgenda b agenda.old → IsAgenda state.now agenda.new }
{
    let is_kept = match agenda {
        Some(agenda) => agenda_follow(alloc, agenda, state, commit).is_ok(),
        None => true,
    };
    if !is_kept {
        *agenda = None;
    }
}

// How the journal writes what a proposal came to.
fn effect_of(applied: Applied, proposal: Proposed) -> Effect
    ensures { (o : Option Reason) → applied ≡ applied_as o → result ≡ option_map_or effects.Over o (effects.Made proposal) }
{
    match applied {
        Applied::Done => Effect::Made(proposal),
        Applied::Over(reason) => Effect::Over(reason),
    }
}

/// The process that the job is for.
pub(crate) fn process_of(job: &Job) -> Process
    ensures { result ≡ process_of job.now }
{
    match job {
        Job::Reduce(process, _) => *process,
        Job::Orient(process, _) => *process,
        Job::Overlap(process, _, _) => *process,
        Job::Close(process) => *process,
    }
}
