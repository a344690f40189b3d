// The agenda of a state, made from nothing.
ghost use Rattle.std.specs.Prelude.{ℕ, ◌⊎◌, ◌↔◌, IfOk, IsTrue, OnOk};
ghost use Rattle.kb_label.specs.Names.{has};
ghost use Rattle.kb_node.specs.declared.job.Job.{Job as Work};
ghost use Rattle.mkb_model.specs.DueJobs.{is_working};
ghost use Rattle.mkb_pick.specs.Listings.{IsProcess, HasJob};
ghost use Rattle.mkb_agenda.specs.Agendas.{IsAgendaOf, IsListedAs, SeatsProcess, LeavesOthers};

use crate::looking::{Touched, look_again};
use kb_label::Process;
use kb_term::Memory;
use mkb_pick::Agenda;
use mkb_rules::State;
use std::alloc::Global;

/// The agenda of a state: the processes that live and have not given up, each with its cost and whether it sleeps, and the jobs that
/// are due for them, each under its weight. It goes over the nodes and the rules of each process.
///
/// # Errors
///
/// Want of memory, also where the state lacks what it keeps of each process where memory allows.
pub fn agenda_of(alloc: Global, state: &State) -> Result<Agenda, Memory>
    ensures { IfOk result (λ agenda. IsAgendaOf state.now agenda.processes) }
{
    let mut agenda = Agenda::new(alloc);
    let living = state.log().processes();
    for i in 0..living.len() {
        let process = &living[i];
        if !state.is_over(process) {
            list(&mut agenda, state, i, process)?;
        }
    }
    Ok(agenda)
}

// Lists a process, which has this place among the living, with its jobs, unless it is listed.
fn list(agenda: &mut Agenda, state: &State, place: usize, process: &Process) -> Result<(), Memory>
    requires { IsTrue (is_working state.now process.now) }
    ensures listed { OnOk result ((¬ IsProcess agenda.old.processes process.now) ⊎ IsListedAs state.now process.now process.now agenda.old.processes → IsListedAs state.now process.now process.now agenda.new.processes) }
    ensures others { OnOk result (LeavesOthers process.now agenda.old.processes agenda.new.processes) }
{
    let Some(kept) = state.kept(place, process) else {
        return Err(Memory);
    };
    if agenda.is_listed(process) {
        return Ok(());
    }
    seat(agenda, state, process)?;
    let touched = Touched {
        process,
        nodes: kept.nodes,
        rules: kept.rules,
        overlap: None,
        is_wide: false,
        loses_rule: false,
    };
    let mut near = place;
    look_again(agenda, state, &touched, &mut near)
}

// Lists a process, which sleeps or not, with no cost and no job.
fn seat(agenda: &mut Agenda, state: &State, process: &Process) -> Result<(), Memory>
    requires { ¬ IsProcess agenda.old.processes process.now }
    ensures processes { OnOk result (SeatsProcess agenda.old.processes process.now (has state.now.asleep process.now) agenda.new.processes) }
    ensures jobs { (j : Work) (w : ℕ) → HasJob agenda.new.processes j w ↔ HasJob agenda.old.processes j w }
{
    agenda.list(*process, 0)?;
    if !state.is_asleep(process) {
        return Ok(());
    }
    agenda.rest(process);
    Ok(())
}
