// The work of a job.
ghost use Rattle.std.specs.Prelude.{IfOk};
ghost use Rattle.kb_jobs.specs.Working.{IsReadable, ProposesBy};

use crate::closing::{CloseSnapshot, close};
use crate::orienting::{OrientSnapshot, orient, orient_by};
use crate::overlapping::{OverlapSnapshot, overlap};
use crate::reducing::{ReduceSnapshot, reduce};
use crate::searching::Searcher;
use kb_term::Memory;
use mkb_model::Proposed;
use std::alloc::Global;
use std::sync::Wait;

/// What a job reads of the board, by its kind.
#[derive(Drop)]
pub enum Snapshot {
    Reduce(ReduceSnapshot),
    Orient(OrientSnapshot),
    Overlap(OverlapSnapshot),
    Close(CloseSnapshot),
}

/// What the job proposes: a function of its snapshot.
pub fn work(alloc: Global, s: &Snapshot) -> Result<Proposed, Memory>
    requires { IsReadable s.now }
    ensures { IfOk result (ProposesBy s.now) }
{
    match s {
        Snapshot::Reduce(read) => reduce(alloc, read),
        Snapshot::Orient(read) => orient(alloc, read),
        Snapshot::Overlap(read) => overlap(alloc, read),
        Snapshot::Close(read) => close(alloc, read),
    }
}

/// The same, where the searcher is asked for the orders of an Orient. It may wait where the searcher does.
pub fn work_by<S: Searcher, R: Wait>(
    rt: &R,
    alloc: Global,
    s: &Snapshot,
    by: &S,
) -> Result<Proposed, Memory>
    requires { IsReadable s.now }
    ensures { IfOk result (ProposesBy s.now) }
{
    match s {
        Snapshot::Orient(read) => orient_by(rt, read, by),
        _ => work(alloc, s),
    }
}
