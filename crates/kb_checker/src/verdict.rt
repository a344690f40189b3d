// What the checker answers.

/// Why an item of an answer fails.
#[derive(Clone, Copy, Debug, PartialEq, Eq)]
pub enum Reject {
    /// The trace step isn't right.
    BadStep,
    /// The trace step that the rule cites isn't there or hasn't the rule's canonical pair.
    Untraced,
    /// The trace step that the constraint cites isn't there or hasn't the constraint's canonical pair.
    UntracedConstraint,
    /// The certificate doesn't make the constraint's left side greater than its right side.
    ConstraintNotOriented,
    /// The certificate doesn't make the rule's left side greater than its right side.
    NotOriented,
    /// The overlap passes a limit, or normalising one of its terms does.
    PairLarge,
    /// Normalising a term of the overlap takes more than 10,000 steps.
    PairSteps,
    /// The normal forms of the overlap's terms differ.
    NotJoined,
    /// Normalising a side of the equation passes a limit.
    EquationLarge,
    /// Normalising a side of the equation takes more than 10,000 steps.
    EquationSteps,
    /// The normal forms of the equation's sides differ.
    NotProved,
}

/// What the checker answers.
#[derive(Clone, Copy, Debug, PartialEq, Eq)]
pub enum Checked {
    /// No item fails.
    Accepted,
    /// Why the first item that fails does so, and its number in its group, from 1.
    Rejected(Reject, u64),
}
