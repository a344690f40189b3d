// Reading the text of a journal.
ghost use Rattle.std.specs.Prelude.{◌≡◌, IfOk, IfErr};
ghost use Rattle.kb_text.specs.Fields.{IsTextFault};
ghost use Rattle.kb_journal.specs.Journals.{Journal, IsJournalText, JournalSpelled};

use crate::journal::JournalText;
use crate::sections::{read_amount, read_chosen, read_entries};
use kb_cert::Family;
use kb_report::{read_count, read_equations, read_word};
use kb_term::{MAX_EQUATIONS, Problem};
use kb_text::TextFault;
use mkb_model::Settings;
use std::alloc::Global;

/// The greatest budget.
const BUDGET: u64 = 100_000;

/// The most equations.
const EQUATIONS: u32 = MAX_EQUATIONS as u32;

/// Reads the text of a journal as `journal_text` writes it: accepts exactly these texts.
///
/// BadText has the number, from 1, of the first line that isn't of its form: the lines before it begin the text of some
/// journal, and with it they begin none. It may be missing or have no line feed, and it may stand behind `END`.
/// The time is linear in the bytes but for the symbols' names, which are compared with each other.
pub fn read_journal(alloc: Global, bytes: &[u8]) -> Result<JournalText, TextFault>
    ensures read { IfOk result (JournalSpelled bytes.now) }
    ensures one { IfOk result (λ j. (k : Journal) → JournalSpelled bytes.now k → j ≡ k) }
    ensures fault { IfErr result (IsTextFault IsJournalText bytes.now) }
{
    let line = read_word(bytes, b"MKBTT JOURNAL 2", 1)?;
    let (_, from_budget) = bytes.split_at(line);
    let (budget, line) = read_amount(from_budget, b"BUDGET ", 1, BUDGET, 2)?;
    let (_, from_selection) = from_budget.split_at(line);
    let chosen = read_chosen(alloc, from_selection, 3)?;
    let (_, from_count) = from_selection.split_at(chosen.size);
    let at = 3 + chosen.lines;
    let sig = chosen.signature;
    let (count, line) = read_count(from_count, b"EQUATIONS ", EQUATIONS, at)?;
    let (_, from_equations) = from_count.split_at(line);
    let (equations, size) = read_equations(alloc, &sig, count, from_equations, at + 1)?;
    let (_, from_entry_count) = from_equations.split_at(size);
    let at = at + 1 + count as u64;
    let (entry_count, line) = read_amount(from_entry_count, b"ENTRIES ", 0, u64::MAX, at)?;
    let (_, from_entries) = from_entry_count.split_at(line);
    let (lines, size) = read_entries(alloc, entry_count, from_entries, at + 1)?;
    let (_, from_end) = from_entries.split_at(size);
    let at = at + 1 + entry_count;
    let end = read_word(from_end, b"END", at)?;
    if end < from_end.len() {
        return Err(TextFault::BadText(at + 1));
    }
    let problem = Problem::new(sig, equations);
    let settings = Settings {
        budget: budget as u32,
        selection: chosen.selection,
        family: Family::Stated,
    };
    Ok(JournalText::new(problem, settings, lines))
}
