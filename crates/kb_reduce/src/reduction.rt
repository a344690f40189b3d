// What is told of an answer that is to be reduced.
use kb_checker::{Answer, Reject};

/// The limit that a right side passes.
#[derive(Clone, Copy, Debug, PartialEq, Eq)]
pub enum Why {
    /// Normalising it takes more than 10,000 steps.
    Steps,
    /// The result of a step is larger than 512.
    Size,
    /// The result of a step is deeper than 64.
    Depth,
    /// The trace would have more than 4,096 steps.
    Trace,
}

/// What is told of an answer that is to be reduced.
#[derive(Drop)]
pub enum Reduction {
    /// The answer with reduced rules.
    Reduced(Answer),
    /// The first item that the check of the answer rejects: why, and its number in its group, from 1.
    Rejected(Reject, u64),
    /// The first rule whose right side passes a limit: which, and the rule's number, from 1.
    Unreduced(Why, u32),
}
