// What is written behind the line that tells a status.
ghost use Rattle.std.specs.Prelude.{◌≡◌, IfOk};
ghost use Rattle.mkbtt_shown.specs.Hints.{line_hint as hint_of_line, refusal_hint as hint_of_refusal};
ghost use Rattle.mkbtt_shown.specs.Sentences.{spent_sentence as sentence_of_spent};

use crate::excerpts::{excerpt, line_start};
use crate::sentences::{kind_sentence, spent_sentence};
use kb_label::Spent;
use kb_term::Memory;
use kb_text::Kind;
use std::alloc::Global;

/// What is said of a line that isn't of the form of what is read.
const LINE_SENTENCE: &[u8] = b"This is the first line that isn't of the form that is read here.\n";

/// The hint at a problem that is refused for this reason at this place: the line that holds the place, with its number; a caret under
/// the place; and a sentence.
///
/// # Errors
///
/// Want of memory.
pub fn refusal_hint(alloc: Global, kind: Kind, text: &[u8], at: u64) -> Result<Vec<u8>, Memory>
    ensures { IfOk result (λ hint. hint.items ≡ hint_of_refusal kind text.now at) }
{
    let mut hint = excerpt(alloc, text, at as usize)?;
    hint.extend_from_slice(kind_sentence(kind))?;
    Ok(hint)
}

/// The hint at a text of which the line with this number, from 1, is the first that isn't of its form: that line, with its number; a
/// caret under its first byte; and a sentence. A line behind the text is its end.
///
/// # Errors
///
/// Want of memory.
pub fn line_hint(alloc: Global, text: &[u8], number: u64) -> Result<Vec<u8>, Memory>
    ensures { IfOk result (λ hint. hint.items ≡ hint_of_line text.now number) }
{
    let mut hint = excerpt(alloc, text, line_start(text, number))?;
    hint.extend_from_slice(LINE_SENTENCE)?;
    Ok(hint)
}

/// The hint at a run that ended without a system, since this was used up: a sentence on what to try.
///
/// # Errors
///
/// Want of memory.
pub fn spent_hint(alloc: Global, spent: Spent) -> Result<Vec<u8>, Memory>
    ensures { IfOk result (λ hint. hint.items ≡ sentence_of_spent spent) }
{
    Ok(Vec::from_slice(alloc, spent_sentence(spent))?)
}
