// The board: the state, the tickets in flight and the journal.
ghost use Rattle.std.specs.Prelude.{◌≡◌, ◌≤◌, ◌+◌, ◌++◌, ◌∷◌, ◌==◌, [], length, map, filter, not, Some, Contains, IsTrue, IfOk, IfSome, if◌then◌else◌, vec_len};
ghost use Rattle.mkb_model.specs.declared.entry.Ticket.{Ticket};
ghost use Rattle.kb_term.specs.Signature.{IsWithinLimits};
ghost use Rattle.kb_cert.specs.Family.{Orders, IsFirstOrder};
ghost use Rattle.kb_label.specs.Names.{has};
ghost use Rattle.kb_node.specs.declared.node.NodeId.{NodeId as Numbered};
ghost use Rattle.mkb_model.specs.Jobs.{process_of};
ghost use Rattle.mkb_model.specs.Plain.{cost, orders_of, equations_of, rules_of, constraints_of, rules_at, certificate_of};
ghost use Rattle.mkb_model.specs.Journals.{opening, landed};
ghost use Rattle.mkb_model.specs.Verdicts.{verdict};
ghost use Rattle.mkb_model.specs.declared.entry.Entry.TheVariants.{Abandon, Halt};
ghost use Rattle.mkb_rules.specs.Parts.{plain_nodes};
ghost use Rattle.mkb_agenda.specs.Agendas.{IsAgendaOf};
ghost use Rattle.mkb_board.specs.Boards.{IsLegalBoard, takes_in, drops_in, has_halt};

use crate::choosing;
use crate::cost::{cost, place_of};
use crate::finishing::process_of;
use crate::shelf::Shelf;
use crate::working::{Placed, first_alone};
use kb_cert::Certificate;
use kb_label::{Labels, ListLabels, Living, NameLog, Process, Verdict};
use kb_node::{Job, NodeTable, View};
use kb_term::{Memory, Problem};
use mkb_agenda::agenda_of;
use mkb_model::{Entry, Settings, Ticket};
use mkb_pick::Agenda;
use mkb_rules::State;
use std::alloc::Global;
use std::marker::Model;

/// The board that workers share. Contracts see the plain board and the journal that led to it.
///
/// The room for the end of each ticket in flight and for a halt is kept, so neither takes memory. The verdict is found once
/// for each commit, and who is worked on is kept from commit to commit. So is the agenda of the jobs that are due, where memory allows:
/// it looks again at those alone that a commit may have changed.
#[derive(Drop)]
pub struct Board {
    pub(crate) state: State,
    pub(crate) verdict: Option<Verdict>,
    pub(crate) flight: Vec<Ticket>,
    pub(crate) journal: Vec<Entry>,
    pub(crate) taken: u64,
    pub(crate) dropped: u64,
    pub(crate) halted: bool,
    pub(crate) agenda: Option<Agenda>,
    pub(crate) shelf: Shelf,
    pub(crate) working: Vec<Placed>,
}

impl Model for Board {
    ghost use Rattle.std.specs.Prelude.{vec_len, vec_capacity, ◌+◌, ◌≤◌, ◌≡◌, []};
    ghost use Rattle.std.specs.Coded.{codes};
    ghost use Rattle.kb_term.specs.Coding.{coded_pair, coded_problem, coded_tree};
    ghost use Rattle.mkb_model.specs.Verdicts.{verdict as verdict_on};
    ghost use Rattle.mkb_board.specs.Boards.{Seen, seen, IsBoard, owed};
    ghost use Rattle.mkb_board.specs.Listed.{IsAgenda};
    ghost use Rattle.mkb_board.specs.Shelf.{HoldsRead};
    ghost use Rattle.mkb_board.specs.Working.{IsWorking};

    ghost Value = { Seen };

    ghost coded = { Prim.hlevel (codes, coded_pair, coded_tree, coded_problem) };

    ghost view = { λ b. seen b.state b.flight.items b.journal.items };

    ghost invariant = { λ b. IsBoard (seen b.state b.flight.items b.journal.items) b.taken b.dropped b.halted × (vec_len b.journal + owed (vec_len b.flight) b.halted ≤ vec_capacity b.journal) × (b.verdict ≡ verdict_on b.state) × IsAgenda b.state b.agenda × HoldsRead b.state b.shelf × IsWorking b.state b.working × (b.state.flight ≡ []) };
}

impl Board {
    /// The board of a problem before any entry.
    ///
    /// # Errors
    ///
    /// Want of memory.
    pub fn start(alloc: Global, problem: Problem, settings: Settings) -> Result<Board, Memory>
        requires { IsWithinLimits problem }
        ensures plain { IfOk result (λ b. b.plain ≡ opening problem settings) }
        ensures journal { IfOk result (λ b. b.journal ≡ []) }
    {
        let journal = Vec::with_capacity(alloc, 1)?;
        let state = State::start(alloc, problem, settings)?;
        let working = first_alone(alloc)?;
        let agenda = agenda_of(alloc, &state).ok();
        let verdict = choosing::verdict(&state, working.as_slice(), None);
        Ok(Board {
            state,
            verdict,
            flight: Vec::new(alloc),
            journal,
            taken: 0,
            dropped: 0,
            halted: false,
            agenda,
            shelf: Shelf::new(alloc),
            working,
        })
    }

    /// The entries, in order; legal for the problem and the settings, and they lead to the board.
    pub fn journal(&self) -> &[Entry]
        ensures journal { result.now ≡ self.now.journal }
        ensures legal { IsLegalBoard self.now }
    {
        self.journal.as_slice()
    }

    /// The journal is legal and makes the board. It runs nothing: each board keeps this.
    pub fn journal_is_legal(&self)
        ensures { IsLegalBoard self.now }
    {
        self.journal();
    }

    /// The state: the board without flight and journal.
    pub fn state(&self) -> &State
        ensures { record result.now { flight = self.now.plain.flight } ≡ self.now.plain }
    {
        &self.state
    }

    /// The table of nodes.
    pub fn nodes(&self) -> &NodeTable<ListLabels>
        ensures { plain_nodes result.now ≡ self.now.plain.nodes }
    {
        self.state.nodes()
    }

    /// What a living process sees of the nodes: its equations, its rules, and each rule that it oriented.
    ///
    /// # Errors
    ///
    /// Want of memory.
    pub fn view(&self, p: &Process) -> Result<View, Memory>
        requires { IsTrue (has self.now.plain.living p.now) }
        ensures equations { IfOk result (λ view. map (λ (n : Numbered). n.0) view.equations ≡ equations_of self.now.plain p.now) }
        ensures rules { IfOk result (λ view. view.rules ≡ rules_of self.now.plain p.now) }
        ensures constraints { IfOk result (λ view. view.constraints ≡ constraints_of self.now.plain p.now) }
    {
        self.state.view_of(p)
    }

    /// The order by which a living process orients: the first of the run's family that orders the constraints of the process.
    ///
    /// # Errors
    ///
    /// Want of memory.
    pub fn certificate(&self, p: &Process) -> Result<Certificate, Memory>
        requires { IsTrue (has self.now.plain.living p.now) }
        ensures of_process { IfOk result (λ c. certificate_of self.now.plain p.now ≡ Some c) }
        ensures member { IfOk result (Contains (orders_of self.now.plain)) }
        ensures orders { IfOk result (λ c. Orders c (rules_at self.now.plain (constraints_of self.now.plain p.now))) }
        ensures first { IfOk result (λ c. IsFirstOrder self.now.plain.settings.family self.now.plain.problem.signature (rules_at self.now.plain (constraints_of self.now.plain p.now)) (Some c)) }
    {
        let certificate = self.state.certificate(p).clone()?;
        Ok(certificate)
    }

    /// The verdict, if one stands.
    pub fn verdict(&self) -> Option<Verdict>
        ensures { result ≡ verdict self.now.plain }
    {
        self.verdict
    }

    /// How many commits were made.
    pub fn commits(&self) -> u32
        ensures { result ≡ self.now.plain.commits }
    {
        self.state.commits()
    }

    /// How many tickets were dropped.
    pub fn drops(&self) -> u64
        ensures { result ≡ drops_in self.now.journal }
    {
        self.dropped
    }

    /// How many processes live.
    pub fn living(&self) -> u32
        ensures { result ≡ length self.now.plain.living }
    {
        self.state.log().living()
    }

    /// How many processes are asleep.
    pub fn asleep(&self) -> u32
        ensures { result ≡ length self.now.plain.asleep }
    {
        self.state.sleepers().len() as u32
    }

    /// The jobs that are due, by processes: exact where memory allowed to keep them, and none where it didn't, until the next take
    /// makes them anew.
    pub fn agenda(&self) -> Option<&Agenda>
        ensures { IfSome result (λ agenda. IsAgendaOf self.now.plain agenda.now.processes) }
    {
        self.agenda.as_ref()
    }

    /// What the job's process costs. It goes over the nodes, and takes no memory.
    pub fn cost_of(&self, job: &Job) -> u32
        ensures { result ≡ cost self.now.plain (process_of job.now) }
    {
        let process = process_of(job);
        cost(&self.state, place_of(&self.state, &process), &process)
    }

    /// Makes a halt, if none was made: no job is taken from here on. It takes no memory.
    pub fn halt(&mut self)
        ensures plain { self.new.plain ≡ self.old.plain }
        ensures journal { self.new.journal ≡ (if has_halt self.old.journal then self.old.journal else self.old.journal ++ Halt ∷ []) }
    {
        if self.halted {
            return;
        }
        self.journal.push(Entry::Halt).unwrap();
        self.halted = true;
    }

    /// Gives a ticket back: its job may be taken again. It takes no memory.
    pub fn abandon(&mut self, ticket: &Ticket)
        requires { Contains self.old.plain.flight ticket.now }
        ensures plain { self.new.plain ≡ landed ticket.now.number self.old.plain }
        ensures journal { self.new.journal ≡ self.old.journal ++ Abandon ticket.now.worker ticket.now.number ∷ [] }
    {
        land(&mut self.flight, ticket.number);
        let entry = Entry::Abandon {
            worker: ticket.worker,
            ticket: ticket.number,
        };
        self.journal.push(entry).unwrap();
    }
}

// Takes the ticket with the number out of the flight, where it is. It takes no memory.
pub(crate) fn land(flight: &mut Vec<Ticket>, number: u64)
    ensures items { flight.new.items ≡ filter (λ (t : Ticket). not (t.number == number)) flight.old.items }
    ensures fewer { (t : Ticket) → Contains flight.old.items t → t.number ≡ number → vec_len flight.new + 1 ≤ vec_len flight.old }
{
    flight.retain(|ticket| ticket.number != number);
}
