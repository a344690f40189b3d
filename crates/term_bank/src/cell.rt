// Cells.
use kb_term::Symbol;

/// A cell of a bank, by its number: the cells are numbered from 0 in the order in which they came in.
#[derive(Clone, Copy, Debug, Default, PartialEq, Eq, Hash)]
pub struct TermId(pub u32);

/// What a cell shows of its term: a variable, or a symbol and the cells of the arguments.
#[derive(Clone, Copy, Debug, Drop)]
pub enum Cell<'a> {
    Var(u16),
    App(Symbol, &'a [TermId]),
}

/// What stands at the root of a cell's term.
#[derive(Clone, Copy)]
pub(crate) enum Head {
    Var(u16),
    App(Symbol),
}

/// What is kept of a cell: the root of its term, where its arguments start in the row of arguments and how many they are,
/// and the size and the depth of the term.
#[derive(Clone, Copy)]
pub(crate) struct Entry {
    pub head: Head,
    pub start: usize,
    pub count: u32,
    pub size: u32,
    pub depth: u32,
}
