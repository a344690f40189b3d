// Reading the text of a system.
ghost use Rattle.std.specs.Prelude.{◌≡◌, IfOk, IfErr};
ghost use Rattle.kb_text.specs.Fields.{IsTextFault};
ghost use Rattle.kb_checker.specs.Answers.{Answer};
ghost use Rattle.kb_report.specs.Answers.{IsTextOf, IsSystemText};

use crate::parts::{answer_of, read_end, read_parts, read_problem};
use crate::version::read_version;
use kb_checker::Answer;
use kb_text::TextFault;
use std::alloc::Global;

/// Reads the text of a system, in version 2, as `answer_text` writes it, or in version 1, which has no constraints: accepts
/// exactly these texts.
///
/// BadText has the number, from 1, of the first line that isn't of its form: the lines before it begin the text of some
/// system, and with it they begin none. It may be missing or have no line feed, and it may stand behind `END`.
/// The time is linear in the bytes but for the symbols' names, which are compared with each other.
pub fn read_answer(alloc: Global, bytes: &[u8]) -> Result<Answer, TextFault>
    ensures read { IfOk result (IsTextOf bytes.now) }
    ensures one { IfOk result (λ a. (b : Answer) → IsTextOf bytes.now b → a ≡ b) }
    ensures fault { IfErr result (IsTextFault IsSystemText bytes.now) }
{
    let (version, line) = read_version(bytes)?;
    let (_, from_problem) = bytes.split_at(line);
    let (problem, lines, size) = read_problem(alloc, from_problem, 2)?;
    let at = 2 + lines;
    let (_, from_rules) = from_problem.split_at(size);
    let (parts, lines, size) = read_parts(alloc, version, problem.signature(), from_rules, at)?;
    let (_, from_end) = from_rules.split_at(size);
    read_end(from_end, at + lines)?;
    Ok(answer_of(problem, parts))
}
