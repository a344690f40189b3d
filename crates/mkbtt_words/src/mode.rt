// The modes of the program and their names.
ghost use Rattle.std.specs.Prelude.{◌≡◌};
ghost use Rattle.mkbtt_words.specs.Modes.{mode_of};

use crate::named::named_in;

/// What the program is to do.
#[derive(Clone, Copy, Debug, PartialEq, Eq)]
pub enum Mode {
    /// Complete a problem and write the answer.
    Complete,
    /// Complete a problem by rounds and write the answer.
    Rounds,
    /// Check an answer.
    Check,
    /// Write an answer in the newest version of its text.
    Convert,
    /// Write an answer's system in its reduced form.
    Reduce,
    /// Decide goals by an answer's system.
    Decide,
    /// Simplify terms by an answer's system.
    Simplify,
    /// Complete a generated problem and write the summary of the run.
    Summary,
    /// Complete a problem and write the journal of the run.
    Journal,
    /// Replay a journal and write the summary of its board.
    Replay,
    /// Write a generated problem.
    Gen,
}

/// Each mode under its name.
pub(crate) static MODES: [(&str, Mode); 11] = [
    ("complete", Mode::Complete),
    ("rounds", Mode::Rounds),
    ("check", Mode::Check),
    ("convert", Mode::Convert),
    ("reduce", Mode::Reduce),
    ("decide", Mode::Decide),
    ("simplify", Mode::Simplify),
    ("summary", Mode::Summary),
    ("journal", Mode::Journal),
    ("replay", Mode::Replay),
    ("gen", Mode::Gen),
];

/// The mode of this name.
pub(crate) fn mode_of(name: &str) -> Option<Mode>
    ensures { result ≡ mode_of name.now }
{
    named_in(&MODES, name)
}
