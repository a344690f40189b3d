// The selections of jobs and their names.
ghost use Rattle.std.specs.Prelude.{◌≡◌};
ghost use Rattle.mkbtt_words.specs.Selections.{selection_of};

use crate::named::named_in;

/// Which job of a process a run takes first.
#[derive(Clone, Copy, Debug, PartialEq, Eq)]
pub enum Selection {
    /// The first by kind and by the numbers in it.
    Stated,
    /// Of each kind the one with the smallest terms.
    Size,
}

/// Each selection under its name.
pub(crate) static SELECTIONS: [(&str, Selection); 2] = [
    ("stated", Selection::Stated),
    ("size", Selection::Size),
];

/// The selection of this name.
pub(crate) fn selection_of(name: &str) -> Option<Selection>
    ensures { result ≡ selection_of name.now }
{
    named_in(&SELECTIONS, name)
}
