// How a run ended.
ghost use Rattle.std.specs.Prelude.{◌≡◌, ◌++◌, ◌∷◌, [], IfOk, OnOk, codes};
ghost use Rattle.mkbtt_top.specs.Statuses.{bound_word as word_of_bound, kind_word as word_of_kind, line_of, code_of};

use kb_checker::Reject;
use kb_label::Spent;
use kb_reduce::Why;
use kb_syntax::{Bound, Fields, Kind};
use kb_term::Memory;
use std::alloc::Global;

/// How a run ended.
#[derive(Clone, Copy, Debug, PartialEq, Eq)]
pub enum Status {
    /// What was asked for was written: the answer of a complete process, that an answer is accepted, a summary or a problem.
    Done,
    /// Each living process failed, and that was written.
    AllFailed,
    /// The answer that was read is rejected, for this reason at the item with this number in its group.
    Rejected(Reject, u64),
    /// The entry with this number, from 1, is the first of the journal that was read that no board makes, following those before.
    BadEntry(u64),
    /// The answer that was read has a rule, with this number, whose right side passes this limit when it is normalised.
    Unreduced(Why, u32),
    /// The budget is used up, or each living process failed or passed a limit, and that was written.
    Spent(Spent),
    /// The bytes that were read are refused, for this reason at this place.
    Refused(Kind, u64),
    /// The line with this number, from 1, is the first that isn't of the form of the text that is read.
    BadText(u64),
    /// The source failed.
    ReadFault,
    /// The sink failed, after a proper front of the text.
    WriteFault,
    /// There was no memory.
    Memory,
    /// The words of the command are refused.
    Words,
}

/// The exit code of the status.
pub fn status_code(status: &Status) -> u8
    ensures { result ≡ code_of status.now }
{
    match status {
        Status::Done => 0,
        Status::AllFailed => 1,
        Status::Rejected(_, _) => 1,
        Status::BadEntry(_) => 1,
        Status::Unreduced(_, _) => 1,
        Status::Spent(_) => 2,
        Status::Refused(_, _) => 3,
        Status::BadText(_) => 3,
        Status::ReadFault => 4,
        Status::WriteFault => 5,
        Status::Memory => 6,
        Status::Words => 7,
    }
}

fn bound_word(bound: Bound) -> &'static [u8]
    ensures { result.now ≡ word_of_bound bound }
{
    match bound {
        Bound::Name => b"name",
        Bound::Equations => b"equations",
        Bound::Size => b"size",
        Bound::Depth => b"depth",
        Bound::Symbols => b"symbols",
        Bound::Variables => b"variables",
        Bound::Arity => b"arity",
        Bound::Input => b"input",
    }
}

fn kind_word(alloc: Global, kind: Kind) -> Result<Vec<u8>, Memory>
    ensures { IfOk result (λ word. word.items ≡ word_of_kind kind) }
{
    let word: &'static [u8] = match kind {
        Kind::NotUtf8 => b"notutf8",
        Kind::Unclosed => b"unclosed",
        Kind::BadSection => b"badsection",
        Kind::Theory => b"theory",
        Kind::Strategy => b"strategy",
        Kind::DoubleVariable => b"doublevariable",
        Kind::Relative => b"relative",
        Kind::Conditional => b"conditional",
        Kind::VariableApplied => b"variableapplied",
        Kind::ArityClash => b"arityclash",
        Kind::BadToken => b"badtoken",
        Kind::Limit(bound) => return limit_word(alloc, bound),
    };
    Ok(Vec::from_slice(alloc, word)?)
}

fn limit_word(alloc: Global, bound: Bound) -> Result<Vec<u8>, Memory>
    ensures { IfOk result (λ word. word.items ≡ codes "limit-" ++ word_of_bound bound) }
{
    let mut word = Vec::from_slice(alloc, b"limit-")?;
    word.extend_from_slice(bound_word(bound))?;
    Ok(word)
}

fn push_words(alloc: Global, line: &mut Fields, first: &[u8], second: &[u8]) -> Result<(), Memory>
    ensures { OnOk result (line.new ≡ line.old ++ first.now ∷ second.now ∷ []) }
{
    line.word(alloc, first)?;
    line.word(alloc, second)
}

/// The line that is written to standard error, with its line feed; nothing where the run did its work.
pub fn status_line(alloc: Global, status: &Status) -> Result<Vec<u8>, Memory>
    ensures { IfOk result (λ text. text.items ≡ line_of status.now) }
{
    let mut text = Vec::new(alloc);
    let mut line = Fields::new(alloc);
    line.word(alloc, b"mkbtt:")?;
    match status {
        Status::Done
        | Status::AllFailed
        | Status::Rejected(_, _)
        | Status::BadEntry(_)
        | Status::Unreduced(_, _)
        | Status::Spent(_) => return Ok(text),
        Status::Refused(kind, at) => {
            line.word(alloc, b"refused")?;
            line.push(kind_word(alloc, *kind)?)?;
            line.word(alloc, b"at")?;
            line.number(alloc, *at)?;
        }
        Status::BadText(n) => {
            push_words(alloc, &mut line, b"refused", b"line")?;
            line.number(alloc, *n)?;
        }
        Status::ReadFault => push_words(alloc, &mut line, b"read", b"fault")?,
        Status::WriteFault => push_words(alloc, &mut line, b"write", b"fault")?,
        Status::Memory => {
            line.word(alloc, b"out")?;
            push_words(alloc, &mut line, b"of", b"memory")?;
        }
        Status::Words => push_words(alloc, &mut line, b"bad", b"words")?,
    }
    line.line_to(&mut text)?;
    Ok(text)
}
