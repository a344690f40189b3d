// The answer that a text begins with.
ghost use Rattle.std.specs.Prelude.{◌≡◌, ◌+◌, ◌≤◌, ◌↔◌, IfOk, IfErr, IsTrue, codes, drop, length};
ghost use Rattle.kb_report.specs.Sections.{BeginsWith, IsSectionFault};
ghost use Rattle.kb_goals.specs.Asking.{AnswerLines, IsUpToEnd};

use kb_checker::Answer;
use kb_report::{first_line, read_answer};
use kb_text::TextFault;
use std::alloc::Global;

fn is_end(line: &[u8]) -> bool
    ensures { IsTrue result ↔ (line.now ≡ codes "END") }
{
    line == b"END".as_slice()
}

// How far the text goes up to and with its first line that is `END`: so many bytes, and so many lines. The whole text where no
// line is.
fn up_to_end(text: &[u8]) -> (usize, usize)
    ensures { IsUpToEnd text.now result.0 result.1 }
{
    let mut at = 0;
    for count in 0..text.len() {
        let (_, rest) = text.split_at(at);
        let Some((line, size)) = first_line(rest) else {
            return (text.len(), count);
        };
        at += size;
        if is_end(line) {
            return (at, count + 1);
        }
    }
    (text.len(), text.len())
}

/// The answer that the text begins with, and how many bytes and lines it takes.
pub(crate) fn read_front(alloc: Global, bytes: &[u8]) -> Result<(Answer, usize, usize), TextFault>
    ensures read { IfOk result (λ p. BeginsWith AnswerLines bytes.now p.0 p.2 (drop p.1 bytes.now)) }
    ensures size { IfOk result (λ p. p.1 ≤ length bytes.now) }
    ensures count { IfOk result (λ p. p.2 + 3 ≤ length bytes.now) }
    ensures fault { IfErr result (IsSectionFault AnswerLines bytes.now 1) }
{
    let (size, count) = up_to_end(bytes);
    let (front, _) = bytes.split_at(size);
    let answer = read_answer(alloc, front)?;
    Ok((answer, size, count))
}
