// Reading the lines of a journal's text.
ghost use Rattle.std.specs.Prelude.{◌≡◌, ◌≤◌, ◌<◌, ◌++◌, ◌∷◌, ℕ, IfOk, IfErr, MatchOption, List, drop, length, ⊤};
ghost use Rattle.kb_text.specs.Fields.{IsWithout};
ghost use Rattle.kb_report.specs.Sections.{BeginsWith, IsSectionFault, ReadsLine};
ghost use Rattle.kb_journal.specs.declared.entry_line.EntryLine.{EntryLine as Read};
ghost use Rattle.kb_journal.specs.EntryLines.{IsEntryLine};
ghost use Rattle.kb_journal.specs.JournalSections.{Amount, Entries, IsAmountLine, IsEntryText, Selected, entry_body, selection_word};

use crate::entry_line::EntryLine;
use crate::entry_text::line_text;
use crate::line_reading::{line_of_fields, whole_of};
use crate::ranges::is_within;
use kb_report::{first_line, read_symbols};
use kb_term::{Memory, Signature};
use kb_text::{Fields, TextFault, is_word};
use mkb_model::Selection;
use std::alloc::Global;

// The number between these behind the word on a line.
fn amount_of(line: &[u8], word: &[u8], low: u64, high: u64) -> Option<u64>
    ensures { MatchOption result ((n : ℕ) → ¬ IsAmountLine word.now low high line.now n) (IsAmountLine word.now low high line.now) }
{
    let Some(digits) = line.strip_prefix(word) else {
        return None;
    };
    let Some(number) = whole_of(digits) else {
        return None;
    };
    if number < low || number > high {
        return None;
    }
    Some(number)
}

/// The number between these behind the word on the line that the text begins with, and how many bytes the line takes.
///
/// # Errors
///
/// `BadText(first)` where the text begins with another line or with none: `first` is the number of that line in a whole text.
pub(crate) fn read_amount(
    text: &[u8],
    word: &[u8],
    low: u64,
    high: u64,
    first: u64,
) -> Result<(u64, usize), TextFault>
    requires order { low ≤ high }
    requires word { IsWithout 10 word.now }
    ensures read { IfOk result (λ p. BeginsWith (Amount word.now low high) text.now p.0 1 (drop p.1 text.now)) }
    ensures size { IfOk result (λ p. p.1 ≤ length text.now) }
    ensures fault { IfErr result (IsSectionFault (Amount word.now low high) text.now first) }
{
    let Some((line, size)) = first_line(text) else {
        return Err(TextFault::BadText(first));
    };
    let Some(number) = amount_of(line, word, low, high) else {
        return Err(TextFault::BadText(first));
    };
    Ok((number, size))
}

/// What a selection's line and the line of the symbols say.
#[derive(Drop)]
pub(crate) struct Chosen {
    pub selection: Selection,
    pub signature: Signature,
    /// How many lines they are.
    pub lines: u64,
    /// How many bytes they take.
    pub size: usize,
}

// How many bytes the line takes that the text begins with, where it is that of the selection by size.
fn selection_size(text: &[u8]) -> Option<usize>
    ensures { MatchOption result ((back : List ℕ) → ¬ (text.now ≡ selection_word ++ 10 ∷ back)) (λ size. (size ≤ length text.now) × (text.now ≡ selection_word ++ 10 ∷ drop size text.now)) }
{
    let Some((line, size)) = first_line(text) else {
        return None;
    };
    if !is_word(line, b"SELECTION size") {
        return None;
    }
    Some(size)
}

/// The selection, the stated one where the text has no line for it, and the symbols behind it.
pub(crate) fn read_chosen(alloc: Global, text: &[u8], first: u64) -> Result<Chosen, TextFault>
    requires { first ≤ 10000 }
    ensures read { IfOk result (λ c. BeginsWith Selected text.now (c.selection, c.signature) c.lines (drop c.size text.now)) }
    ensures size { IfOk result (λ c. c.size ≤ length text.now) }
    ensures lines { IfOk result (λ c. c.lines ≤ 2) }
    ensures fault { IfErr result (IsSectionFault Selected text.now first) }
{
    let Some(skipped) = selection_size(text) else {
        let (signature, size) = read_symbols(alloc, text, first)?;
        return Ok(Chosen {
            selection: Selection::Stated,
            signature,
            lines: 1,
            size,
        });
    };
    let (_, rest) = text.split_at(skipped);
    let (signature, size) = read_symbols(alloc, rest, first + 1)?;
    Ok(Chosen {
        selection: Selection::Size,
        signature,
        lines: 2,
        size: skipped + size,
    })
}

// The entry that a line is: one whose line, written again, is this one, and whose numbers are within their ranges.
fn entry_of(alloc: Global, line: &[u8]) -> Result<Option<EntryLine>, Memory>
    ensures { IfOk result (λ read. MatchOption read ((l : Read) → ¬ IsEntryText line.now l) (IsEntryText line.now)) }
{
    let fields = Fields::cut(alloc, line, b' ')?;
    let entry = line_of_fields(&fields);
    let text = line_text(alloc, &entry)?;
    if !is_word(&text, line) {
        return Ok(None);
    }
    if !is_within(&entry) {
        return Ok(None);
    }
    Ok(Some(entry))
}

// The entry on the line that the text begins with, and how many bytes it takes.
fn next_entry(alloc: Global, text: &[u8]) -> Result<Option<(EntryLine, usize)>, Memory>
    ensures read { IfOk result (ReadsLine (λ line. line) IsEntryLine entry_body text.now) }
    ensures size { IfOk result (λ read. MatchOption read ⊤ (λ p. (0 < p.1) × (p.1 ≤ length text.now))) }
{
    let Some((line, size)) = first_line(text) else {
        return Ok(None);
    };
    match entry_of(alloc, line)? {
        Some(entry) => Ok(Some((entry, size))),
        None => Ok(None),
    }
}

/// So many entries, each on its line, and how many bytes they take.
///
/// # Errors
///
/// `BadText` with the number of the first line that isn't an entry's, where the text begins with the line `first` of a whole
/// text. `Memory` for want of memory.
pub(crate) fn read_entries(
    alloc: Global,
    count: u64,
    text: &[u8],
    first: u64,
) -> Result<(Vec<EntryLine>, usize), TextFault>
    requires { first ≤ 10000 }
    ensures read { IfOk result (λ p. BeginsWith (Entries count) text.now p.0.items count (drop p.1 text.now)) }
    ensures size { IfOk result (λ p. p.1 ≤ length text.now) }
    ensures few { IfOk result (λ p. count ≤ p.1) }
    ensures fault { IfErr result (IsSectionFault (Entries count) text.now first) }
{
    let mut entries = Vec::new(alloc);
    let mut at = 0;
    for k in 0..count {
        let (_, rest) = text.split_at(at);
        let Some((entry, size)) = next_entry(alloc, rest)? else {
            return Err(TextFault::BadText(first + k));
        };
        entries.push(entry)?;
        at += size;
    }
    Ok((entries, at))
}
