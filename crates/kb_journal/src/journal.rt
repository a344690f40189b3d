// Journals as they are written.
ghost use Rattle.std.specs.Prelude.{◌≡◌};
ghost use Rattle.kb_journal.specs.Journals.{IsJournal};

use crate::entry_line::EntryLine;
use kb_term::Problem;
use mkb_model::Settings;
use std::marker::Model;

/// A problem, the settings of a run, and the lines of its entries, as the text of a journal may have them: a problem within the
/// limits, a budget from 1 to 100,000, and lines whose workers are 1 to 16, tickets from 1 on, nodes 0 to 4,095 and directions
/// 0 or 1. Whether a board makes these entries is another question.
#[derive(Drop)]
pub struct JournalText {
    problem: Problem,
    settings: Settings,
    lines: Vec<EntryLine>,
}

impl Model for JournalText {
    ghost use Rattle.std.specs.Coded.{codes};
    ghost use Rattle.kb_term.specs.Coding.{coded_pair, coded_problem};
    ghost use Rattle.kb_journal.specs.Journals.{Journal, IsJournal};

    ghost Value = { Journal };

    ghost coded = { Prim.hlevel (codes, coded_pair, coded_problem) };

    ghost view = { λ j. record { problem = j.problem; settings = j.settings; lines = j.lines.items } };

    ghost invariant = { λ j. IsJournal (record { problem = j.problem; settings = j.settings; lines = j.lines.items }) };
}

impl JournalText {
    /// The journal of these parts.
    pub fn new(problem: Problem, settings: Settings, lines: Vec<EntryLine>) -> JournalText
        requires { IsJournal (record { problem = problem; settings = settings; lines = lines.items }) }
        ensures { result ≡ record { problem = problem; settings = settings; lines = lines.items } }
    {
        JournalText {
            problem,
            settings,
            lines,
        }
    }

    /// The problem, which is within the limits.
    pub fn problem(&self) -> &Problem
        ensures problem { result.now ≡ self.now.problem }
        ensures kept { IsJournal self.now }
    {
        &self.problem
    }

    /// The settings of the run.
    pub fn settings(&self) -> Settings
        ensures { result ≡ self.now.settings }
    {
        self.settings
    }

    /// The lines of the entries, in order.
    pub fn lines(&self) -> &[EntryLine]
        ensures lines { result.now ≡ self.now.lines }
        ensures kept { IsJournal self.now }
    {
        &self.lines
    }
}
