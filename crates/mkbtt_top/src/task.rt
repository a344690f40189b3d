// What the words ask for.
ghost use Rattle.std.specs.Prelude.{◌≡◌, Ok, None, map, IfOk, IfSome};
ghost use Rattle.mkbtt_words.specs.Reading.{AreRefused};
ghost use Rattle.mkbtt_top.specs.Tasks.{selection_by, settings_of as settings_in, task_of as task_in, AskFor};

use crate::workers::Workers;
use kb_term::Memory;
use mkb_model::{Selection, Settings};
use mkbtt_words::{Format, Mode, Words, WordsFault, read_words};
use std::alloc::Global;

/// What is to be done, with the numbers that it needs.
#[derive(Clone, Copy, PartialEq, Eq)]
pub enum Task {
    /// Complete the problem that is read, with these settings and by these workers, and write the report.
    Complete {
        settings: Settings,
        workers: Workers,
    },
    /// Complete the problem that is read, with these settings and by these workers, and write the journal of the run.
    Journal {
        settings: Settings,
        workers: Workers,
    },
    /// Make the entries of the journal that is read again, and write the summary of the board to which they lead.
    Replay,
    /// Check the answer that is read, and write what the checker says.
    Check,
    /// Write the answer that is read in this format.
    Convert {
        format: Format,
    },
    /// Write the answer that is read with its rules reduced.
    Reduce,
    /// Decide the goals that are read behind an answer, by its rules.
    Decide,
    /// Simplify the terms that are read behind an answer, by its rules.
    Simplify,
    /// Complete the generated problem with this number, with these settings, and write the summary of the run.
    Summary {
        settings: Settings,
        number: u32,
    },
    /// Write the generated problem with this number.
    Generate {
        number: u32,
    },
}

// The selection of a run that the words name.
fn selection_of(named: mkbtt_words::Selection) -> Selection
    ensures { result ≡ selection_by named }
{
    match named {
        mkbtt_words::Selection::Stated => Selection::Stated,
        mkbtt_words::Selection::Size => Selection::Size,
    }
}

// The settings of the run that the words ask for.
fn settings_of(words: &Words) -> Settings
    ensures { result ≡ settings_in words.now }
{
    Settings {
        selection: selection_of(words.selection),
        ..Settings::stated(words.budget)
    }
}

fn task_of(words: &Words) -> Task
    ensures { result ≡ task_in words.now }
{
    match words.mode {
        Mode::Complete => Task::Complete {
            settings: settings_of(words),
            workers: Workers::Free(words.workers),
        },
        Mode::Rounds => Task::Complete {
            settings: settings_of(words),
            workers: Workers::InRounds(words.workers),
        },
        Mode::Journal => Task::Journal {
            settings: settings_of(words),
            workers: Workers::Free(words.workers),
        },
        Mode::Replay => Task::Replay,
        Mode::Check => Task::Check,
        Mode::Convert => Task::Convert {
            format: words.format,
        },
        Mode::Summary => Task::Summary {
            settings: settings_of(words),
            number: words.number,
        },
        Mode::Gen => Task::Generate {
            number: words.number,
        },
        Mode::Reduce => Task::Reduce,
        Mode::Decide => Task::Decide,
        Mode::Simplify => Task::Simplify,
    }
}

/// What the words ask for; none where they are refused.
pub(crate) fn asked_task(alloc: Global, words: &[&str]) -> Result<Option<Task>, Memory>
    ensures asked { IfOk result (λ o. IfSome o (λ task. AskFor task (map (λ w. w.now) words.now))) }
    ensures bad { result ≡ Ok None → AreRefused (map (λ w. w.now) words.now) }
{
    match read_words(alloc, words) {
        Ok(read) => Ok(Some(task_of(&read))),
        Err(WordsFault::Refused) => Ok(None),
        Err(WordsFault::Memory) => Err(Memory),
    }
}
