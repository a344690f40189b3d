// The text of a trace.
ghost use Rattle.std.specs.Prelude.{◌≡◌, ◌++◌, ◌∷◌, [], OnOk, IfOk, codes, decimal};
ghost use Rattle.kb_text.specs.Terms.{names_of};
ghost use Rattle.kb_trace.specs.TraceText.{position_text as text_of_position, cited_fields, origin_fields, step_line, trace_text as text_of_trace};

use crate::trace::{Step, Trace};
use kb_term::{Memory, Origin, Position, RuleRef, Signature};
use kb_text::{Fields, term_text};
use std::alloc::Global;

/// The text of a trace: a line for each step, numbered from 1.
pub fn trace_text(alloc: Global, sig: &Signature, t: &Trace) -> Result<Vec<u8>, Memory>
    ensures { IfOk result (λ text. text.items ≡ text_of_trace sig.now t.now) }
{
    let steps = t.steps();
    let mut out = Vec::new(alloc);
    for k in 0..steps.len() {
        push_step(alloc, &mut out, sig, (k + 1) as u64, &steps[k])?;
    }
    Ok(out)
}

/// Adds the line of a step with its number.
fn push_step(
    alloc: Global,
    out: &mut Vec<u8>,
    sig: &Signature,
    number: u64,
    step: &Step,
) -> Result<(), Memory>
    ensures { OnOk result (out.new.items ≡ out.old.items ++ step_line (names_of sig.now) number step.now) }
{
    let mut line = Fields::new(alloc);
    line.number(alloc, number)?;
    push_origin(alloc, &mut line, step.origin())?;
    line.word(alloc, b":")?;
    line.push(term_text(alloc, sig, step.pair().first())?)?;
    line.word(alloc, b"=")?;
    line.push(term_text(alloc, sig, step.pair().second())?)?;
    line.line_to(out)
}

/// Adds what says where a pair comes from.
fn push_origin(alloc: Global, line: &mut Fields, origin: &Origin) -> Result<(), Memory>
    ensures { OnOk result (line.new ≡ line.old ++ origin_fields origin.now) }
{
    match origin {
        Origin::Input(i) => {
            line.word(alloc, b"input")?;
            line.number(alloc, *i as u64)
        }
        Origin::Rewrite {
            node,
            side,
            position,
            rule,
        } => {
            line.word(alloc, b"rewrite")?;
            line.number(alloc, *node as u64)?;
            line.word(alloc, b"side")?;
            line.number(alloc, *side as u64)?;
            line.word(alloc, b"at")?;
            line.push(position_text(alloc, position)?)?;
            push_cited(alloc, line, b"by", *rule)
        }
        Origin::Overlap {
            outer,
            inner,
            position,
        } => {
            push_cited(alloc, line, b"overlap", *outer)?;
            push_cited(alloc, line, b"with", *inner)?;
            line.word(alloc, b"at")?;
            line.push(position_text(alloc, position)?)?;
            Ok(())
        }
    }
}

/// Adds a word, and the number and direction of the rule that is cited behind it.
fn push_cited(alloc: Global, line: &mut Fields, word: &[u8], cited: RuleRef) -> Result<(), Memory>
    ensures { OnOk result (line.new ≡ line.old ++ cited_fields word.now cited) }
{
    line.word(alloc, word)?;
    line.number(alloc, cited.node as u64)?;
    line.word(alloc, b"dir")?;
    line.number(alloc, cited.dir as u64)
}

/// The text of a position: e for the root, else argument numbers joined by dots.
pub fn position_text(alloc: Global, position: &Position) -> Result<Vec<u8>, Memory>
    ensures { IfOk result (λ text. text.items ≡ text_of_position position.now) }
{
    let steps = position.steps();
    if steps.is_empty() {
        let root = Vec::from_slice(alloc, b"e")?;
        return Ok(root);
    }
    let mut numbers = Fields::new(alloc);
    for k in 0..steps.len() {
        numbers.number(alloc, steps[k] as u64)?;
    }
    let mut text = Vec::new(alloc);
    numbers.join_to(&mut text, b'.')?;
    Ok(text)
}
