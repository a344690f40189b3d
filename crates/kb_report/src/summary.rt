// The summary of a run.
ghost use Rattle.std.specs.Prelude.{◌≡◌, ◌++◌, ◌∷◌, [], IfOk, OnOk, codes};
ghost use Rattle.kb_text.specs.Lines.{counted};
ghost use Rattle.kb_report.specs.Summaries.{bit_digit as digit_of_bit, process_text as text_of_process, spent_fields, verdict_fields, summary_text as text_of_summary};

use crate::answer::push_counted;
use crate::report::reason_word;
use kb_label::{Process, Spent, Verdict};
use kb_term::Memory;
use kb_text::Fields;
use std::alloc::Global;

/// What a run came to, in numbers.
#[derive(Clone, Copy, Debug, PartialEq, Eq)]
pub struct Summary {
    /// How the run ended.
    pub verdict: Option<Verdict>,
    /// How many entries were committed.
    pub commits: u64,
    /// How many were dropped.
    pub drops: u64,
    /// How many nodes there are.
    pub nodes: u64,
    /// How many of them are no rule and no equation of any process.
    pub dead: u64,
    /// How many forks there were.
    pub forks: u64,
    /// How many processes live.
    pub living: u64,
    /// How many of them passed a limit.
    pub over: u64,
    /// How many rules the complete process has, else 0.
    pub rules: u64,
}

fn bit_digit(bit: bool) -> u8
    ensures { result ≡ digit_of_bit bit }
{
    if bit { b'1' } else { b'0' }
}

/// The name of a process: `e` for the first, else its bits as digits, the first bit first.
///
/// # Errors
///
/// Want of memory.
pub fn process_text(alloc: Global, process: &Process) -> Result<Vec<u8>, Memory>
    ensures { IfOk result (λ text. text.items ≡ text_of_process process.now) }
{
    if process.is_empty() {
        return Ok(Vec::from_slice(alloc, b"e")?);
    }
    let mut text = Vec::new(alloc);
    for i in 0..process.len() {
        text.push(bit_digit(process.bit(i)))?;
    }
    Ok(text)
}

fn push_spent(alloc: Global, line: &mut Fields, spent: Spent) -> Result<(), Memory>
    ensures { OnOk result (line.new ≡ line.old ++ spent_fields spent) }
{
    line.word(alloc, b"spent")?;
    match spent {
        Spent::Commits => line.word(alloc, b"commits"),
        Spent::Over(reason) => {
            line.word(alloc, b"over")?;
            line.word(alloc, reason_word(reason))
        }
    }
}

fn push_verdict(alloc: Global, line: &mut Fields, verdict: &Option<Verdict>) -> Result<(), Memory>
    ensures { OnOk result (line.new ≡ line.old ++ verdict_fields verdict.now) }
{
    match verdict {
        None => line.word(alloc, b"none"),
        Some(Verdict::Complete(process)) => {
            line.word(alloc, b"complete")?;
            line.push(process_text(alloc, process)?)
        }
        Some(Verdict::AllFailed) => line.word(alloc, b"failed"),
        Some(Verdict::Spent(spent)) => push_spent(alloc, line, *spent),
    }
}

/// The one spelling of a summary: a line for the verdict, and one for each number.
pub fn summary_text(alloc: Global, s: &Summary) -> Result<Vec<u8>, Memory>
    ensures { IfOk result (λ text. text.items ≡ text_of_summary s.now) }
{
    let mut line = Fields::new(alloc);
    line.word(alloc, b"verdict")?;
    push_verdict(alloc, &mut line, &s.verdict)?;
    let mut out = Vec::new(alloc);
    line.line_to(&mut out)?;
    push_counted(alloc, &mut out, b"commits", s.commits)?;
    push_counted(alloc, &mut out, b"drops", s.drops)?;
    push_counted(alloc, &mut out, b"nodes", s.nodes)?;
    push_counted(alloc, &mut out, b"dead", s.dead)?;
    push_counted(alloc, &mut out, b"forks", s.forks)?;
    push_counted(alloc, &mut out, b"living", s.living)?;
    push_counted(alloc, &mut out, b"over", s.over)?;
    push_counted(alloc, &mut out, b"rules", s.rules)?;
    Ok(out)
}
