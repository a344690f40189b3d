// The workers of a completion.
ghost use Rattle.std.specs.Prelude.{◌≡◌, []};
ghost use Rattle.mkbtt_top.specs.Workers.{EndsBy, FewWorkers};

use crate::host::Host;
use kb_io::Gate;
use mkb_board::Board;
use mkb_rounds::work_rounds;
use std::sync::Wait;
use std::thread::Threads;
use std::time::Clock;
use work_crew::{Crew, work_alone, work_together};

/// How many workers there are, and how they go about their work.
#[derive(Clone, Copy, PartialEq, Eq)]
pub enum Workers {
    /// Each takes a job as soon as it has ended one.
    Free(u8),
    /// By rounds, whose journal is the same for every number of workers.
    InRounds(u8),
}

/// The board on which the workers have ended: one without a thread of its own, more in a thread each.
pub(crate) fn worked_on<R: Threads + Wait + Clock + Sync, G: Gate>(
    host: &Host<R, G>,
    board: Board,
    workers: Workers,
) -> Crew
    requires few { FewWorkers workers }
    requires opening { board.journal ≡ [] }
    ensures { EndsBy board.plain.problem board.plain.settings workers result }
{
    match workers {
        Workers::Free(1) => work_alone(host.alloc, board, host.gate),
        Workers::Free(count) => work_together(host.rt, host.alloc, board, count, host.gate),
        Workers::InRounds(count) => work_rounds(host.rt, host.alloc, board, count, host.gate),
    }
}
