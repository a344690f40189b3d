// What a board answers.
use kb_jobs::Snapshot;
use kb_label::{Process, Verdict};
use mkb_model::Ticket;
use mkb_rules::Applied;

/// What a take gives.
#[derive(Drop)]
pub enum Taken {
    /// A ticket for the first job, with what the job reads.
    Job(Ticket, Snapshot),
    /// No job may be taken now; so many tickets are in flight, at least one.
    Idle(usize),
    /// The verdict that stands.
    Over(Verdict),
    /// A halt was made, and no verdict stands.
    Halted,
}

/// What a finish came to. The entry that it made is the last of the journal.
#[derive(Drop)]
pub enum Finished {
    /// A verdict stood, and nothing was changed.
    Ended(Verdict),
    /// Nothing was left on which the proposal could act; the process of the job.
    Dropped(Process),
    /// The proposal was committed.
    Committed(Applied),
}
