// Reading goals.
ghost use Rattle.std.specs.Prelude.{◌≡◌, IfOk, IfErr, List};
ghost use Rattle.kb_term.specs.Tree.{Tree};
ghost use Rattle.kb_term.specs.View.{equations_of_list};
ghost use Rattle.kb_text.specs.Fields.{IsTextFault};
ghost use Rattle.kb_checker.specs.Answers.{Answer};
ghost use Rattle.kb_goals.specs.Asking.{IsGoalsTextOf, IsGoalsText};

use crate::front::read_front;
use kb_checker::Answer;
use kb_report::{read_count, read_equations, read_word};
use kb_term::Term;
use kb_text::TextFault;
use std::alloc::Global;

/// The most goals, and the most terms.
pub(crate) const ASKED: u32 = 256;

/// Reads an answer, in either version, and the goals behind it: a line `GOALS` with their number, at most 256; a line
/// `left = right` for each; and the line `END`. Accepts exactly these texts.
///
/// A goal's sides are terms over the answer's symbols of at most size 512 and depth 64, with at most 64 variables, which are
/// numbered by first occurrence, left side first.
///
/// # Errors
///
/// `BadText` with the number, from 1, of the first line that isn't of its form: the lines before it begin such a text, and with
/// it they begin none. It may be missing or have no line feed, and it may stand behind the last line. `Memory` for want of
/// memory.
///
/// The time is linear in the bytes, as `read_answer`'s is; an answer's end is looked for first.
pub fn read_goals(alloc: Global, bytes: &[u8]) -> Result<(Answer, Vec<(Term, Term)>), TextFault>
    ensures read { IfOk result (λ r. IsGoalsTextOf bytes.now r.0 (equations_of_list r.1.items)) }
    ensures one { IfOk result (λ r. (b : Answer) (goals : List (Tree × Tree)) → IsGoalsTextOf bytes.now b goals → (r.0 ≡ b) × (equations_of_list r.1.items ≡ goals)) }
    ensures fault { IfErr result (IsTextFault IsGoalsText bytes.now) }
{
    let (answer, size, lines) = read_front(alloc, bytes)?;
    let (_, from_count) = bytes.split_at(size);
    let at = lines as u64 + 1;
    let (count, line) = read_count(from_count, b"GOALS ", ASKED, at)?;
    let (_, from_goals) = from_count.split_at(line);
    let signature = answer.problem().signature();
    let (goals, size) = read_equations(alloc, signature, count, from_goals, at + 1)?;
    let (_, from_end) = from_goals.split_at(size);
    let at = at + 1 + count as u64;
    let end = read_word(from_end, b"END", at)?;
    if end < from_end.len() {
        return Err(TextFault::BadText(at + 1));
    }
    Ok((answer, goals))
}
