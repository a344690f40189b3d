// What is said of a goal.
use kb_term::{Position, Term};

/// One step of rewriting.
#[derive(Drop)]
pub struct Line {
    pub position: Position,
    /// The number of the rule, from 1.
    pub rule: u32,
}

/// Why a term has no normal form within the limits.
#[derive(Clone, Copy, Debug, PartialEq, Eq)]
pub enum Reason {
    /// A redex is left after 10,000 steps.
    Steps,
    /// The result of a step is larger than 512.
    Size,
    /// The result of a step is deeper than 64.
    Depth,
}

/// What the rules say of a goal.
#[derive(Drop)]
pub enum Decision {
    /// The steps that lead the left and the right side to one normal form.
    Yes(Vec<Line>, Vec<Line>),
    /// The normal forms of the left and the right side, which differ.
    No(Term, Term),
    /// The limit that normalising the left side passes; or the right side, where the left one has a normal form.
    Unknown(Reason),
}
