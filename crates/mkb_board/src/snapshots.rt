// What a job reads of the board.
mod closing;
pub(crate) mod named;
mod orienting;
mod overlapping;
mod reducing;

ghost use Rattle.std.specs.Prelude.{◌≡◌, IfOk};
ghost use Rattle.kb_jobs.specs.Working.{IsTaken, job_of};
ghost use Rattle.mkb_model.specs.Invariants.{FactsHold};
ghost use Rattle.mkb_board.specs.Shelf.{HoldsRead};
ghost use Rattle.mkb_board.specs.Snapshots.{HasJobNodes, HasOrder, IsWhole};

use crate::shelf::Shelf;
use closing::close_snapshot;
use kb_jobs::Snapshot;
use kb_node::Job;
use kb_term::Memory;
use mkb_rules::State;
use orienting::orient_snapshot;
use overlapping::overlap_snapshot;
use reducing::reduce_snapshot;
use std::alloc::Global;

/// What a job reads of the board. The rules and the pair that it reads are kept for later jobs.
///
/// # Errors
///
/// Want of memory.
pub(crate) fn snapshot(
    alloc: Global,
    state: &State,
    shelf: &mut Shelf,
    job: &Job,
) -> Result<Snapshot, Memory>
    requires there { HasJobNodes state.now job.now }
    requires ordered { HasOrder state.now job.now }
    requires facts { FactsHold state.now }
    requires shelf { HoldsRead state.now shelf.old }
    ensures shelf { HoldsRead state.now shelf.new }
    ensures job { IfOk result (λ s. job_of s ≡ job.now) }
    ensures taken { IfOk result (IsTaken state.now) }
    ensures whole { IfOk result IsWhole }
{
    match job {
        Job::Reduce(process, node) => {
            let snapshot = reduce_snapshot(alloc, state, shelf, *process, *node)?;
            Ok(Snapshot::Reduce(snapshot))
        }
        Job::Orient(process, node) => {
            let snapshot = orient_snapshot(alloc, state, shelf, *process, *node)?;
            Ok(Snapshot::Orient(snapshot))
        }
        Job::Overlap(process, first, second) => {
            let snapshot = overlap_snapshot(state, shelf, *process, *first, *second)?;
            Ok(Snapshot::Overlap(snapshot))
        }
        Job::Close(process) => {
            let snapshot = close_snapshot(alloc, state, shelf, *process)?;
            Ok(Snapshot::Close(snapshot))
        }
    }
}
