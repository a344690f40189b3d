// The sign between the sides of an equation.

/// How the two sides of an equation are joined.
#[derive(Clone, Copy, PartialEq, Eq)]
pub enum Sign {
    Arrow,
    Equals,
}
