// What is said of words that are refused.
ghost use Rattle.std.specs.Prelude.{◌≡◌, ◌≢◌, Ok, None, IfErr, IfOk, IfSome, IsOk, IsSome, map};
ghost use Rattle.clap.specs.Words.{kind_of};
ghost use Rattle.clap.specs.declared.error.kind.ErrorKind.TheVariants.{OutOfMemory};
ghost use Rattle.mkbtt_words.specs.Reading.{AreRefused, AreTaken};

use crate::command::command;
use crate::fault::{WordsFault, fault_of};
use crate::format::FORMATS;
use crate::mode::MODES;
use crate::naming::name_message;
use crate::selection::SELECTIONS;
use crate::words::{format_in, mode_in, words_of};
use clap::ArgMatches;
use std::alloc::{AllocError, Global};

// The message of an error of the command's parser.
fn message_of(alloc: Global, error: &clap::Error) -> Result<Option<String>, WordsFault>
    ensures some { IfOk result (λ message. IsSome message) }
    ensures refused { IsOk result → kind_of error.now ≢ OutOfMemory }
    ensures memory { IfErr result (λ fault. fault ≡ WordsFault.Memory) }
{
    match fault_of(error) {
        WordsFault::Refused => Ok(Some(format!(in alloc; "{error}")?)),
        WordsFault::Memory => Err(WordsFault::Memory),
    }
}

// The message for the first of the mode, the format and the selection that has none of their names.
fn unknown_message(alloc: Global, matches: &ArgMatches<'_>) -> Result<String, AllocError> {
    if mode_in(matches).is_none() {
        name_message(alloc, "<mode>", &MODES, text_in(matches, "mode"))
    } else if format_in(matches).is_none() {
        name_message(alloc, "--to <to>", &FORMATS, text_in(matches, "to"))
    } else {
        name_message(
            alloc,
            "--select <select>",
            &SELECTIONS,
            text_in(matches, "select"),
        )
    }
}

// The text of this argument; none is as an empty one.
fn text_in<'a>(matches: &ArgMatches<'a>, argument: &str) -> &'a str {
    matches.get_str(argument).unwrap_or("")
}

/// The message for words that the command refuses, none for words that it takes. Where its parser refuses them it is the
/// parser's; where a name is none of those there are it is in the same words.
///
/// # Errors
///
/// Want of memory.
pub fn refusal_message(alloc: Global, words: &[&str]) -> Result<Option<String>, WordsFault>
    ensures taken { result ≡ Ok None → AreTaken (map (λ w. w.now) words.now) }
    ensures refused { IfOk result (λ message. IsSome message → AreRefused (map (λ w. w.now) words.now)) }
    ensures memory { IfErr result (λ fault. fault ≡ WordsFault.Memory) }
{
    let command = command(alloc)?;
    match command.try_get_matches_from(words) {
        Ok(matches) => match words_of(&matches) {
            Some(_words) => Ok(None),
            None => Ok(Some(unknown_message(alloc, &matches)?)),
        },
        Err(error) => message_of(alloc, &error),
    }
}
