// Reading the text of a trace.
ghost use Rattle.std.specs.Prelude.{◌≡◌, ◌<◌, ◌≤◌, List, IfOk, IfErr, MatchOption, drop, length};
ghost use Rattle.kb_term.specs.Signature.{IsSignature};
ghost use Rattle.kb_overlap.specs.Trace.{TraceStep};
ghost use Rattle.kb_text.specs.Fields.{IsTextFault};
ghost use Rattle.kb_trace.specs.TraceText.{IsTraceForm, IsTraceText, trace_text};
ghost use Rattle.kb_trace.specs.Reading.{IsStepText, BeginsWithNoStep, BeginsWithStep};

use crate::fields::{STEPS, step_of};
use crate::trace::{Step, Trace};
use kb_term::{Memory, Signature};
use kb_text::{Fields, TextFault, line_length};
use std::alloc::Global;

/// The step with the number that the line is, without its line feed.
fn read_step(
    alloc: Global,
    signature: &Signature,
    number: u16,
    line: &[u8],
) -> Result<Option<Step>, Memory>
    requires { IsSignature signature.now }
    ensures { IfOk result (λ read. MatchOption read ((s : TraceStep) → ¬ IsStepText signature.now number line.now s) (IsStepText signature.now number line.now)) }
{
    let fields = Fields::cut(alloc, line, b' ')?;
    step_of(alloc, signature, number, &fields)
}

/// The step with the number whose line the text begins with, and how many bytes the line takes.
fn next_step(
    alloc: Global,
    signature: &Signature,
    number: usize,
    text: &[u8],
) -> Result<Option<(Step, usize)>, Memory>
    requires { IsSignature signature.now }
    ensures step { IfOk result (λ read. MatchOption read (BeginsWithNoStep signature.now number text.now) (λ e. BeginsWithStep signature.now number text.now e.0 (drop e.1 text.now))) }
    ensures size { IfOk result (λ read. MatchOption read (◌≤◌ 0 0) (λ e. (0 < e.1) × (e.1 ≤ length text.now))) }
{
    if number > STEPS as usize {
        return Ok(None);
    }
    let Some(length) = line_length(text) else {
        return Ok(None);
    };
    let (line, _) = text.split_at(length);
    match read_step(alloc, signature, number as u16, line)? {
        None => Ok(None),
        Some(step) => Ok(Some((step, length + 1))),
    }
}

/// The trace whose text the bytes are, as `trace_text` writes it: a line for each step, numbered from 1, with single
/// spaces, numbers without leading zeros, and canonical pairs within the limits.
///
/// BadText has the number, from 1, of the first line that isn't of its form: it may be missing its line feed, or be the
/// line 4,097. The time is linear in the bytes.
pub fn read_trace(alloc: Global, sig: &Signature, lines: &[u8]) -> Result<Trace, TextFault>
    ensures read { IfOk result (λ t. IsTraceForm sig.now t × (lines.now ≡ trace_text sig.now t)) }
    ensures one { IfOk result (λ t. (u : List TraceStep) → IsTraceForm sig.now u → lines.now ≡ trace_text sig.now u → t ≡ u) }
    ensures fault { IfErr result (IsTextFault (IsTraceText sig.now) lines.now) }
{
    sig.names_are_identifiers();
    let mut steps = Vec::new(alloc);
    let mut at = 0;
    let mut number = 1;
    while at < lines.len() {
        let (_, rest) = lines.split_at(at);
        let Some((step, size)) = next_step(alloc, sig, number, rest)? else {
            return Err(TextFault::BadText(number as u64));
        };
        steps.push(step)?;
        at += size;
        number += 1;
    }
    Ok(Trace::new(steps))
}
