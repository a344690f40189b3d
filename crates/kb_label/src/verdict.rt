// Why and how a search ends.
use crate::process::Process;

/// What stopped the search of a process.
#[derive(Clone, Copy, Debug, PartialEq, Eq)]
pub enum Reason {
    /// The table of nodes is full.
    Nodes,
    /// As many processes live as may live.
    Processes,
    /// A term is too large.
    Size,
    /// A term is too deep.
    Depth,
    /// A pair has too many variables.
    Variables,
    /// Normalising took too many steps.
    Steps,
}

/// What was used up.
#[derive(Clone, Copy, Debug, PartialEq, Eq)]
pub enum Spent {
    /// The budget of commits.
    Commits,
    /// A limit, in each process that hasn't failed.
    Over(Reason),
}

/// How a search ended.
#[derive(Clone, Copy, Debug, PartialEq, Eq)]
pub enum Verdict {
    /// This process has a complete system.
    Complete(Process),
    /// Each living process failed.
    AllFailed,
    /// Something was used up.
    Spent(Spent),
}
