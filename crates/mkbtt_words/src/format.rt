// The formats of converted answers and their names.
ghost use Rattle.std.specs.Prelude.{◌≡◌};
ghost use Rattle.mkbtt_words.specs.Formats.{format_of};

use crate::named::named_in;

/// As what an answer is written.
#[derive(Clone, Copy, Debug, PartialEq, Eq)]
pub enum Format {
    /// The newest version of its text.
    Answer,
    /// Its rules, as a problem.
    Trs,
    /// Its trace, as a graph.
    Dot,
}

/// Each format under its name.
pub(crate) static FORMATS: [(&str, Format); 3] = [
    ("answer", Format::Answer),
    ("trs", Format::Trs),
    ("dot", Format::Dot),
];

/// The format of this name.
pub(crate) fn format_of(name: &str) -> Option<Format>
    ensures { result ≡ format_of name.now }
{
    named_in(&FORMATS, name)
}
