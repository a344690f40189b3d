// What a completion reports.
ghost use Rattle.std.specs.Prelude.{◌≡◌, ◌++◌, IfOk, OnOk, List, ℕ};
ghost use Rattle.kb_text.specs.Lines.{line};
ghost use Rattle.kb_report.specs.Answers.{head_line, end_line};
ghost use Rattle.kb_report.specs.Reports.{reason_word as word_of_reason, report_text, short_text as text_of_short};

use crate::answer::system_text;
use kb_checker::Answer;
use kb_label::Reason;
use kb_term::Memory;
use kb_text::Fields;
use std::alloc::Global;

/// What a completion comes to.
#[derive(Drop)]
pub enum Report {
    /// A system, with what shows that it is one.
    System(Answer),
    /// Each of the living processes failed.
    AllFailed { living: u32 },
    /// The budget of commits is used up.
    SpentCommits { commits: u32, living: u32 },
    /// Each of the living processes failed or passed a limit.
    SpentOver { reason: Reason, living: u32 },
}

/// The word for what stopped a process.
pub fn reason_word(reason: Reason) -> &'static [u8]
    ensures { result.now ≡ word_of_reason reason }
{
    match reason {
        Reason::Nodes => b"nodes",
        Reason::Processes => b"processes",
        Reason::Size => b"size",
        Reason::Depth => b"depth",
        Reason::Variables => b"variables",
        Reason::Steps => b"steps",
    }
}

/// The spelling of a report, in version 2: a system with its problem, rules, constraints, order and trace, or one line that
/// says why there is none.
pub fn answer_text(alloc: Global, r: &Report) -> Result<Vec<u8>, Memory>
    ensures { IfOk result (λ text. text.items ≡ report_text r.now) }
{
    match r {
        Report::System(a) => system_text(alloc, a),
        Report::AllFailed { living } => failed_text(alloc, *living),
        Report::SpentCommits { commits, living } => commits_text(alloc, *commits, *living),
        Report::SpentOver { reason, living } => over_text(alloc, *reason, *living),
    }
}

fn failed_text(alloc: Global, living: u32) -> Result<Vec<u8>, Memory>
    ensures { IfOk result (λ text. text.items ≡ report_text (Report.AllFailed living)) }
{
    let mut line = Fields::new(alloc);
    line.word(alloc, b"FAILED")?;
    line.number(alloc, living as u64)?;
    short_text(alloc, &line)
}

fn commits_text(alloc: Global, commits: u32, living: u32) -> Result<Vec<u8>, Memory>
    ensures { IfOk result (λ text. text.items ≡ report_text (Report.SpentCommits commits living)) }
{
    let mut line = Fields::new(alloc);
    line.word(alloc, b"SPENT")?;
    line.word(alloc, b"COMMITS")?;
    line.number(alloc, commits as u64)?;
    line.number(alloc, living as u64)?;
    short_text(alloc, &line)
}

fn over_text(alloc: Global, reason: Reason, living: u32) -> Result<Vec<u8>, Memory>
    ensures { IfOk result (λ text. text.items ≡ report_text (Report.SpentOver reason living)) }
{
    let mut line = Fields::new(alloc);
    line.word(alloc, b"SPENT")?;
    line.word(alloc, b"OVER")?;
    line.word(alloc, reason_word(reason))?;
    line.number(alloc, living as u64)?;
    short_text(alloc, &line)
}

// A text of one line between its head and its end.
fn short_text(alloc: Global, line: &Fields) -> Result<Vec<u8>, Memory>
    ensures { IfOk result (λ text. text.items ≡ text_of_short line.now) }
{
    let mut text = Vec::from_slice(alloc, b"MKBTT 2\n")?;
    line.line_to(&mut text)?;
    text.extend_from_slice(b"END\n")?;
    Ok(text)
}
