// How a run goes on.
ghost use Rattle.std.specs.Prelude.{◌≡◌, ◌++◌, IfOk, OnOk};
ghost use Rattle.mkbtt_shown.specs.Progress.{cleared_by, cost_text, counted, progress_text as text_of_progress};

use crate::manner::Progress;
use kb_io::Moment;
use kb_term::{Memory, push_number};
use std::alloc::Global;

/// What brings a terminal back to the beginning of its line, and clears the line.
const CLEAR: &[u8] = b"\r\x1b[K";

// Adds a number, and what it counts.
fn push_count(alloc: Global, out: &mut Vec<u8>, number: u64, what: &[u8]) -> Result<(), Memory>
    ensures { OnOk result (out.new.items ≡ out.old.items ++ counted number what.now) }
{
    push_number(alloc, out, number)?;
    out.extend_from_slice(what)?;
    Ok(())
}

// Adds what a process costs, where it was told.
fn push_cost(alloc: Global, out: &mut Vec<u8>, cost: Option<u32>) -> Result<(), Memory>
    ensures { OnOk result (out.new.items ≡ out.old.items ++ cost_text cost) }
{
    match cost {
        None => Ok(()),
        Some(cost) => {
            out.extend_from_slice(b"cost ")?;
            push_count(alloc, out, cost as u64, b", ")
        }
    }
}

/// What is written to show how a run goes on, so many seconds after it began: commits, nodes, living processes and those of them that
/// are awake, and where it was told what the process costs whose job was taken. Nothing where progress is hidden.
///
/// # Errors
///
/// Want of memory.
pub fn progress_text(
    alloc: Global,
    progress: Progress,
    moment: &Moment,
    seconds: u64,
) -> Result<Vec<u8>, Memory>
    ensures { IfOk result (λ text. text.items ≡ text_of_progress progress moment.now seconds) }
{
    let mut text = Vec::new(alloc);
    if progress == Progress::Hidden {
        return Ok(text);
    }
    if progress == Progress::InPlace {
        text.extend_from_slice(CLEAR)?;
    }
    text.extend_from_slice(b"mkbtt: ")?;
    push_count(alloc, &mut text, moment.commits as u64, b" commits, ")?;
    push_count(alloc, &mut text, moment.nodes as u64, b" nodes, ")?;
    push_count(alloc, &mut text, moment.living as u64, b" processes, ")?;
    push_count(alloc, &mut text, moment.awake as u64, b" awake, ")?;
    push_cost(alloc, &mut text, moment.cost)?;
    push_count(alloc, &mut text, seconds, b" s")?;
    if progress == Progress::Lines {
        text.push(b'\n')?;
    }
    Ok(text)
}

/// What is written where nothing more is shown: it clears the line that was written anew.
pub fn cleared(progress: Progress) -> &'static [u8]
    ensures { result.now ≡ cleared_by progress }
{
    match progress {
        Progress::InPlace => CLEAR,
        Progress::Hidden | Progress::Lines => b"",
    }
}
