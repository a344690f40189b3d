// The text of decisions.
ghost use Rattle.std.specs.Prelude.{◌≡◌, ◌++◌, flat_map, IfOk, OnOk};
ghost use Rattle.kb_term.specs.View.{tree_of};
ghost use Rattle.kb_text.specs.Terms.{names_of};
ghost use Rattle.kb_goals.specs.Answering.{reason_word as word_of_reason, step_line, term_line, decision_text, decisions_text, decide_text as text_of_decisions};

use kb_decide::{Decision, Line, Reason};
use kb_term::{Memory, Signature, Term};
use kb_text::{Fields, term_text};
use kb_trace::position_text;
use std::alloc::Global;

// The word for the limit that was passed.
pub(crate) fn reason_word(reason: Reason) -> &'static [u8]
    ensures { result.now ≡ word_of_reason reason }
{
    match reason {
        Reason::Steps => b"steps",
        Reason::Size => b"size",
        Reason::Depth => b"depth",
    }
}

// The line of a step on one side.
fn push_step(alloc: Global, out: &mut Vec<u8>, side: &[u8], step: &Line) -> Result<(), Memory>
    ensures { OnOk result (out.new.items ≡ out.old.items ++ step_line side.now step.now) }
{
    let mut line = Fields::new(alloc);
    line.word(alloc, side)?;
    line.push(position_text(alloc, &step.position)?)?;
    line.number(alloc, step.rule as u64)?;
    line.line_to(out)
}

fn push_steps(alloc: Global, out: &mut Vec<u8>, side: &[u8], steps: &[Line]) -> Result<(), Memory>
    ensures { OnOk result (out.new.items ≡ out.old.items ++ flat_map (step_line side.now) steps.now) }
{
    for step in steps {
        push_step(alloc, out, side, step)?;
    }
    Ok(())
}

// A term on a line of its own.
fn push_term_line(
    alloc: Global,
    out: &mut Vec<u8>,
    signature: &Signature,
    term: &Term,
) -> Result<(), Memory>
    ensures { OnOk result (out.new.items ≡ out.old.items ++ term_line (names_of signature.now) (tree_of term.now)) }
{
    let mut line = Fields::new(alloc);
    line.push(term_text(alloc, signature, term)?)?;
    line.line_to(out)
}

// What is said of the goal with the number.
fn push_decision(
    alloc: Global,
    out: &mut Vec<u8>,
    signature: &Signature,
    number: u64,
    decision: &Decision,
) -> Result<(), Memory>
    ensures { OnOk result (out.new.items ≡ out.old.items ++ decision_text (names_of signature.now) number decision.now) }
{
    let mut line = Fields::new(alloc);
    line.number(alloc, number)?;
    match decision {
        Decision::Yes(left, right) => {
            line.word(alloc, b"YES")?;
            line.number(alloc, left.len() as u64)?;
            line.number(alloc, right.len() as u64)?;
            line.line_to(out)?;
            push_steps(alloc, out, b"left", left)?;
            push_steps(alloc, out, b"right", right)
        }
        Decision::No(left, right) => {
            line.word(alloc, b"NO")?;
            line.line_to(out)?;
            push_term_line(alloc, out, signature, left)?;
            push_term_line(alloc, out, signature, right)
        }
        Decision::Unknown(reason) => {
            line.word(alloc, b"UNKNOWN")?;
            line.word(alloc, reason_word(*reason))?;
            line.line_to(out)
        }
    }
}

fn push_decisions(
    alloc: Global,
    out: &mut Vec<u8>,
    signature: &Signature,
    decisions: &[Decision],
) -> Result<(), Memory>
    ensures { OnOk result (out.new.items ≡ out.old.items ++ decisions_text (names_of signature.now) 1 decisions.now) }
{
    for k in 0..decisions.len() {
        push_decision(alloc, out, signature, (k + 1) as u64, &decisions[k])?;
    }
    Ok(())
}

/// The one spelling of decisions, numbered from 1: `YES` with the numbers of steps of both sides, and a line for each step with
/// its side, its position and the number of its rule; `NO` with the two normal forms, each on a line; or `UNKNOWN` with the limit
/// that was passed.
///
/// # Errors
///
/// Want of memory.
pub fn decide_text(
    alloc: Global,
    sig: &Signature,
    decisions: &[Decision],
) -> Result<Vec<u8>, Memory>
    ensures { IfOk result (λ text. text.items ≡ text_of_decisions sig.now decisions.now) }
{
    let mut out = Vec::from_slice(alloc, b"MKBTT DECIDE 1\n")?;
    push_decisions(alloc, &mut out, sig, decisions)?;
    out.extend_from_slice(b"END\n")?;
    Ok(out)
}
