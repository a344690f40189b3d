// The reduced system of an answer.
ghost use Rattle.std.specs.Prelude.{◌≡◌, ◌≤◌, None, IfOk, IfErr};
ghost use Rattle.kb_io.specs.Bytes.{TakesAtMost};
ghost use Rattle.mkbtt_top.specs.Reducing.{unreduced_text as text_of_unreduced, why_word as word_of_why, Reduces, TellsOf};
ghost use Rattle.mkbtt_top.specs.Runs.{StopsBy};

use crate::answering::answer_from;
use crate::checking::rejection;
use crate::converting::formatted;
use crate::reply::{Reply, Stop};
use crate::status::Status;
use crate::task::Task;
use kb_checker::Answer;
use kb_io::Source;
use kb_reduce::{Reduction, Why, reduce};
use kb_syntax::Fields;
use kb_term::Memory;
use mkbtt_words::Format;
use std::alloc::Global;

fn why_word(why: Why) -> &'static [u8]
    ensures { result.now ≡ word_of_why why }
{
    match why {
        Why::Steps => b"steps",
        Why::Size => b"size",
        Why::Depth => b"depth",
        Why::Trace => b"trace",
    }
}

// The one line that says which rule isn't reduced, and why.
fn unreduced_text(alloc: Global, why: Why, n: u32) -> Result<Vec<u8>, Memory>
    ensures { IfOk result (λ text. text.items ≡ text_of_unreduced why n) }
{
    let mut line = Fields::new(alloc);
    line.word(alloc, b"UNREDUCED")?;
    line.word(alloc, why_word(why))?;
    line.number(alloc, n as u64)?;
    let mut text = Vec::new(alloc);
    line.line_to(&mut text)?;
    Ok(text)
}

// The reply that tells what becomes of the answer.
fn reduced(alloc: Global, answer: &Answer) -> Result<Reply, Memory>
    ensures told { IfOk result (λ r. TellsOf answer.now r.status r.text.items) }
    ensures board { IfOk result (λ r. r.board ≡ None) }
{
    match reduce(alloc, answer)? {
        Reduction::Reduced(answer) => { Ok(Reply::done(formatted(alloc, answer, Format::Answer)?)) }
        Reduction::Rejected(reason, n) => rejection(alloc, reason, n),
        Reduction::Unreduced(why, n) => Ok(Reply {
            text: unreduced_text(alloc, why, n)?,
            status: Status::Unreduced(why, n),
            board: None,
        }),
    }
}

/// Reads an answer from the source and reduces its rules; the reply is the reduced answer, or why there is none.
pub(crate) fn reduce_source<S: Source>(alloc: Global, source: &mut S) -> Result<Reply, Stop>
    ensures reply { IfOk result (λ r. Reduces r.status r.board (S.left source.old) (S.left source.new) r.text.items) }
    ensures stop { IfErr result (StopsBy Task.Reduce (S.left source.old) (S.left source.new) (S.quiet source.old) (S.faults source.old) (S.faults source.new)) }
    ensures few { TakesAtMost (S.left source.old) 67108865 (S.left source.new) }
    ensures count { S.faults source.old ≤ S.faults source.new }
{
    let answer = answer_from(alloc, source)?;
    Ok(reduced(alloc, &answer)?)
}
