// The conversion of an answer.
ghost use Rattle.std.specs.Prelude.{◌≡◌, ◌≤◌, IfOk, IfErr};
ghost use Rattle.kb_io.specs.Bytes.{TakesAtMost};
ghost use Rattle.mkbtt_top.specs.Converting.{Converts, IsWrittenAs};
ghost use Rattle.mkbtt_top.specs.Runs.{StopsBy};

use crate::answering::answer_from;
use crate::reply::{Reply, Stop};
use crate::status::Status;
use crate::task::Task;
use kb_checker::Answer;
use kb_export::{dot_text, trs_text};
use kb_io::Source;
use kb_report::{Report, answer_text};
use kb_term::Memory;
use mkbtt_words::Format;
use std::alloc::Global;

/// The text of the answer in this format.
///
/// # Errors
///
/// Want of memory.
pub(crate) fn formatted(alloc: Global, answer: Answer, format: Format) -> Result<Vec<u8>, Memory>
    ensures { IfOk result (λ text. IsWrittenAs format text.items answer) }
{
    match format {
        Format::Answer => answer_text(alloc, &Report::System(answer)),
        Format::Trs => trs_text(alloc, &answer),
        Format::Dot => dot_text(alloc, &answer),
    }
}

/// Reads an answer from the source, of either version; the reply is its text in this format.
pub(crate) fn convert_source<S: Source>(
    alloc: Global,
    source: &mut S,
    format: Format,
) -> Result<Reply, Stop>
    ensures reply { IfOk result (λ r. Converts format r.status r.board (S.left source.old) (S.left source.new) r.text.items) }
    ensures stop { IfErr result (StopsBy (Task.Convert format) (S.left source.old) (S.left source.new) (S.quiet source.old) (S.faults source.old) (S.faults source.new)) }
    ensures few { TakesAtMost (S.left source.old) 67108865 (S.left source.new) }
    ensures count { S.faults source.old ≤ S.faults source.new }
{
    let answer = answer_from(alloc, source)?;
    Ok(Reply {
        text: formatted(alloc, answer, format)?,
        status: Status::Done,
        board: None,
    })
}
