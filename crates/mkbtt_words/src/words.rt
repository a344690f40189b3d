// What the words of a command line come to.
ghost use Rattle.std.specs.Prelude.{◌≡◌, IfOk, Err, codes, map};
ghost use Rattle.clap.specs.Words.{found_of, rows_of};
ghost use Rattle.mkbtt_words.specs.Command.{budget, number, workers};
ghost use Rattle.mkbtt_words.specs.Parsed.{HasNumber};
ghost use Rattle.mkbtt_words.specs.Formats.{format_of as format_by};
ghost use Rattle.mkbtt_words.specs.Modes.{mode_of as mode_by};
ghost use Rattle.mkbtt_words.specs.Selections.{selection_of as selection_by};
ghost use Rattle.mkbtt_words.specs.Reading.{AreRead, AreRefused, named_in, together, words_in};

use crate::command::command;
use crate::fault::{WordsFault, fault_of};
use crate::format::{Format, format_of};
use crate::mode::{Mode, mode_of};
use crate::selection::{Selection, selection_of};
use clap::ArgMatches;
use std::alloc::Global;

/// What the words of a command line come to.
#[derive(Clone, Copy, Debug, PartialEq, Eq)]
pub struct Words {
    /// What is to be done.
    pub mode: Mode,
    /// How many workers, from 1 to 16.
    pub workers: u8,
    /// The most commits of a run, from 1 to 100,000.
    pub budget: u32,
    /// The number of the generated problem, from 1 to 64.
    pub number: u32,
    /// As what `convert` writes an answer.
    pub format: Format,
    /// Which job a run takes first.
    pub selection: Selection,
}

/// The mode that a parse found.
pub(crate) fn mode_in(matches: &ArgMatches<'_>) -> Option<Mode>
    ensures { result ≡ named_in mode_by (codes "mode") (rows_of (found_of matches.now)) }
{
    mode_of(matches.get_str("mode")?)
}

/// The format that a parse found.
pub(crate) fn format_in(matches: &ArgMatches<'_>) -> Option<Format>
    ensures { result ≡ named_in format_by (codes "to") (rows_of (found_of matches.now)) }
{
    format_of(matches.get_str("to")?)
}

// The selection that a parse found.
fn selection_in(matches: &ArgMatches<'_>) -> Option<Selection>
    ensures { result ≡ named_in selection_by (codes "select") (rows_of (found_of matches.now)) }
{
    selection_of(matches.get_str("select")?)
}

// These together, where each is there.
fn together(
    mode: Option<Mode>,
    workers: Option<u8>,
    budget: Option<u32>,
    number: Option<u32>,
    format: Option<Format>,
    selection: Option<Selection>,
) -> Option<Words>
    ensures { result ≡ together mode workers budget number format selection }
{
    Some(Words {
        mode: mode?,
        workers: workers?,
        budget: budget?,
        number: number?,
        format: format?,
        selection: selection?,
    })
}

/// What a parse of the command found; nothing where the mode, the format or the selection has none of their names.
pub(crate) fn words_of(matches: &ArgMatches<'_>) -> Option<Words>
    requires workers { HasNumber workers (found_of matches.now) }
    requires budget { HasNumber budget (found_of matches.now) }
    requires number { HasNumber number (found_of matches.now) }
    ensures { result ≡ words_in (rows_of (found_of matches.now)) }
{
    together(
        mode_in(matches),
        matches.get_one::<u8>("workers"),
        matches.get_one::<u32>("budget"),
        matches.get_one::<u32>("number"),
        format_in(matches),
        selection_in(matches),
    )
}

/// Reads the words after the program's name: a mode, and the options `--workers`, `--budget`, `--number`, `--to` and `--select`
/// in any place.
///
/// An option that is not given has its standard value: 4 workers, a budget of 20,000 commits, problem 8, the answer's text, the
/// stated selection.
///
/// # Errors
///
/// `Refused` where the command does not take the words, or they ask for its help, or the mode, the format or the selection is
/// none of those there are; `Memory` for want of memory.
pub fn read_words(alloc: Global, words: &[&str]) -> Result<Words, WordsFault>
    ensures read { IfOk result (AreRead (map (λ w. w.now) words.now)) }
    ensures refused { result ≡ Err WordsFault.Refused → AreRefused (map (λ w. w.now) words.now) }
{
    let command = command(alloc)?;
    match command.try_get_matches_from(words) {
        Ok(matches) => words_of(&matches).ok_or(WordsFault::Refused),
        Err(error) => Err(fault_of(&error)),
    }
}
