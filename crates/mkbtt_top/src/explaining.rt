// What helps whoever reads the status of a run.
ghost use Rattle.std.specs.Prelude.{◌≡◌, IfOk};
ghost use Rattle.mkbtt_top.specs.Explaining.{hint_of};

use crate::status::Status;
use kb_term::Memory;
use mkbtt_shown::{line_hint, refusal_hint, spent_hint};
use std::alloc::Global;

/// The hint for a run with this status that read the text: where the text is refused the line that holds the place, a caret under
/// the place, and a sentence; where the budget is used up or limits were passed a sentence on what to try; else nothing. For
/// refused words `refusal_message` of `mkbtt_words` has the text.
///
/// # Errors
///
/// Want of memory.
pub fn hint(alloc: Global, status: &Status, text: &[u8]) -> Result<Vec<u8>, Memory>
    ensures { IfOk result (λ hint. hint.items ≡ hint_of status.now text.now) }
{
    match status {
        Status::Refused(kind, at) => refusal_hint(alloc, *kind, text, *at),
        Status::BadText(n) => line_hint(alloc, text, *n),
        Status::Spent(spent) => spent_hint(alloc, *spent),
        Status::Done
        | Status::AllFailed
        | Status::Rejected(_, _)
        | Status::BadEntry(_)
        | Status::Unreduced(_, _)
        | Status::ReadFault
        | Status::WriteFault
        | Status::Memory
        | Status::Words => Ok(Vec::new(alloc)),
    }
}
