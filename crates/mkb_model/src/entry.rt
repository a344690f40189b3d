// Tickets and journal entries.
use crate::proposed::Proposed;
use kb_label::{Process, Reason};
use kb_node::Job;

/// A job in the hands of a worker.
#[derive(Clone, Copy, Debug, PartialEq, Eq)]
pub struct Ticket {
    pub number: u64,
    pub worker: u8,
    pub job: Job,
}

/// What a commit did.
#[derive(Drop)]
pub enum Effect {
    /// At a limit, processes gave up for this reason.
    Over(Reason),
    /// The proposal had its effect.
    Made(Proposed),
}

/// An entry of the journal.
#[derive(Drop)]
pub enum Entry {
    /// A worker took a job under the next ticket number.
    Take {
        worker: u8,
        ticket: u64,
        job: Job,
    },
    /// A ticket ended with an effect.
    Commit {
        worker: u8,
        ticket: u64,
        effect: Effect,
    },
    /// A ticket ended with nothing left to act on.
    Drop {
        worker: u8,
        ticket: u64,
        process: Process,
    },
    /// A worker gave a ticket back.
    Abandon {
        worker: u8,
        ticket: u64,
    },
    /// No job is taken from here on.
    Halt,
}
