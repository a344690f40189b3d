// Writing the lines of entries.
ghost use Rattle.std.specs.Prelude.{◌≡◌, ◌++◌, ◌∷◌, [], IfOk, OnOk, codes, decimal};
ghost use Rattle.kb_report.specs.Summaries.{process_text as text_of_process};
ghost use Rattle.kb_journal.specs.EntryLines.{commit_fields, entry_fields, rule_text as text_of_rule, take_fields, target_text, IsCommitLine};
ghost use Rattle.kb_journal.specs.Journals.{entry_line};
ghost use Rattle.kb_journal.specs.JournalSections.{entry_body};

use crate::entry_line::EntryLine;
use kb_label::Process;
use kb_report::{process_text, reason_word};
use kb_term::{Memory, RuleRef, push_number};
use kb_text::Fields;
use std::alloc::Global;

fn rule_text(alloc: Global, rule: RuleRef) -> Result<Vec<u8>, Memory>
    ensures { IfOk result (λ text. text.items ≡ text_of_rule rule) }
{
    let mut text = Vec::new(alloc);
    push_number(alloc, &mut text, rule.node as u64)?;
    text.push(b'.')?;
    push_number(alloc, &mut text, rule.dir as u64)?;
    Ok(text)
}

// The fields of a take: its worker and its ticket, the kind of the job, and the process.
fn push_take(
    alloc: Global,
    fields: &mut Fields,
    taker: (u8, u64),
    kind: &[u8],
    process: &Process,
) -> Result<(), Memory>
    ensures { OnOk result (fields.new ≡ fields.old ++ take_fields taker.0 taker.1 kind.now process.now) }
{
    fields.word(alloc, b"take")?;
    fields.number(alloc, taker.0 as u64)?;
    fields.number(alloc, taker.1)?;
    fields.word(alloc, kind)?;
    fields.push(process_text(alloc, process)?)
}

fn push_commit(alloc: Global, fields: &mut Fields, ticket: u64, kind: &[u8]) -> Result<(), Memory>
    ensures { OnOk result (fields.new ≡ fields.old ++ commit_fields ticket kind.now) }
{
    fields.word(alloc, b"commit")?;
    fields.number(alloc, ticket)?;
    fields.word(alloc, kind)
}

fn push_counting(
    alloc: Global,
    fields: &mut Fields,
    ticket: u64,
    kind: &[u8],
    count: u64,
) -> Result<(), Memory>
    ensures { OnOk result (fields.new ≡ fields.old ++ (commit_fields ticket kind.now ++ decimal count ∷ [])) }
{
    push_commit(alloc, fields, ticket, kind)?;
    fields.number(alloc, count)
}

fn push_target(alloc: Global, fields: &mut Fields, node: Option<u16>) -> Result<(), Memory>
    ensures { OnOk result (fields.new ≡ fields.old ++ target_text node ∷ []) }
{
    match node {
        None => fields.word(alloc, b"trivial"),
        Some(n) => fields.number(alloc, n as u64),
    }
}

// The fields of the line of a commit.
fn push_committed(alloc: Global, fields: &mut Fields, line: &EntryLine) -> Result<(), Memory>
    requires { IsCommitLine line.now }
    ensures { OnOk result (fields.new ≡ fields.old ++ entry_fields line.now) }
{
    match line {
        EntryLine::Facts { ticket, count } => {
            push_counting(alloc, fields, *ticket, b"facts", *count)
        }
        EntryLine::Rewrite { ticket, node } => {
            push_commit(alloc, fields, *ticket, b"rewrite")?;
            push_target(alloc, fields, *node)
        }
        EntryLine::Oriented { ticket, direction } => {
            push_counting(alloc, fields, *ticket, b"oriented", *direction as u64)
        }
        EntryLine::Fork { ticket } => push_commit(alloc, fields, *ticket, b"fork"),
        EntryLine::Refused { ticket } => push_commit(alloc, fields, *ticket, b"refused"),
        EntryLine::Deduced { ticket, count } => {
            push_counting(alloc, fields, *ticket, b"deduced", *count)
        }
        EntryLine::Unjoined { ticket, count } => {
            push_counting(alloc, fields, *ticket, b"unjoined", *count)
        }
        EntryLine::Closed { ticket } => push_commit(alloc, fields, *ticket, b"closed"),
        EntryLine::Over { ticket, reason } => {
            push_commit(alloc, fields, *ticket, b"over")?;
            fields.word(alloc, reason_word(*reason))
        }
        _ => Ok(()),
    }
}

// The fields of a take of a job on a node.
fn push_node_take(
    alloc: Global,
    fields: &mut Fields,
    taker: (u8, u64),
    kind: &[u8],
    job: (&Process, u16),
) -> Result<(), Memory>
    ensures { OnOk result (fields.new ≡ fields.old ++ (take_fields taker.0 taker.1 kind.now job.entry.0.now ++ decimal job.entry.1 ∷ [])) }
{
    push_take(alloc, fields, taker, kind, job.0)?;
    fields.number(alloc, job.1 as u64)
}

// The fields of a take of a job on two rules.
fn push_rules_take(
    alloc: Global,
    fields: &mut Fields,
    taker: (u8, u64),
    process: &Process,
    rules: (RuleRef, RuleRef),
) -> Result<(), Memory>
    ensures { OnOk result (fields.new ≡ fields.old ++ (take_fields taker.0 taker.1 (codes "overlap") process.now ++ text_of_rule rules.0 ∷ text_of_rule rules.1 ∷ [])) }
{
    push_take(alloc, fields, taker, b"overlap", process)?;
    fields.push(rule_text(alloc, rules.0)?)?;
    fields.push(rule_text(alloc, rules.1)?)
}

// Adds the fields of a line.
fn push_line(alloc: Global, fields: &mut Fields, line: &EntryLine) -> Result<(), Memory>
    ensures { OnOk result (fields.new ≡ fields.old ++ entry_fields line.now) }
{
    match line {
        EntryLine::TakeReduce {
            worker,
            ticket,
            process,
            node,
        } => {
            push_node_take(
                alloc,
                fields,
                (*worker, *ticket),
                b"reduce",
                (process, *node),
            )
        }
        EntryLine::TakeOrient {
            worker,
            ticket,
            process,
            node,
        } => {
            push_node_take(
                alloc,
                fields,
                (*worker, *ticket),
                b"orient",
                (process, *node),
            )
        }
        EntryLine::TakeOverlap {
            worker,
            ticket,
            process,
            a,
            b,
        } => { push_rules_take(alloc, fields, (*worker, *ticket), process, (*a, *b)) }
        EntryLine::TakeClose {
            worker,
            ticket,
            process,
        } => { push_take(alloc, fields, (*worker, *ticket), b"close", process) }
        EntryLine::Drop { ticket, process } => {
            fields.word(alloc, b"drop")?;
            fields.number(alloc, *ticket)?;
            fields.push(process_text(alloc, process)?)
        }
        EntryLine::Abandon { ticket } => {
            fields.word(alloc, b"abandon")?;
            fields.number(alloc, *ticket)
        }
        EntryLine::Halt => fields.word(alloc, b"halt"),
        _ => push_committed(alloc, fields, line),
    }
}

/// The line of an entry, without its line feed.
///
/// # Errors
///
/// Want of memory.
pub(crate) fn line_text(alloc: Global, line: &EntryLine) -> Result<Vec<u8>, Memory>
    ensures { IfOk result (λ text. text.items ≡ entry_body line.now) }
{
    let mut fields = Fields::new(alloc);
    push_line(alloc, &mut fields, line)?;
    let mut text = Vec::new(alloc);
    fields.join_to(&mut text, b' ')?;
    Ok(text)
}

/// Adds an entry's line to the text.
///
/// # Errors
///
/// Want of memory.
pub(crate) fn push_entry(alloc: Global, out: &mut Vec<u8>, line: &EntryLine) -> Result<(), Memory>
    ensures { OnOk result (out.new.items ≡ out.old.items ++ entry_line line.now) }
{
    let mut fields = Fields::new(alloc);
    push_line(alloc, &mut fields, line)?;
    fields.line_to(out)
}
