// Reading the lines of the trace.
ghost use Rattle.std.specs.Prelude.{◌≡◌, ◌≤◌, ◌<◌, IfOk, IfErr, drop, length};
ghost use Rattle.kb_term.specs.Signature.{IsSignature};
ghost use Rattle.kb_report.specs.Sections.{BeginsWith, IsSectionFault, AreFirstLines};
ghost use Rattle.kb_report.specs.SystemSections.{Steps};

use kb_term::{MAX_NODES, Signature};
use kb_text::{TextFault, line_length};
use kb_trace::{Trace, read_trace};
use std::alloc::Global;

/// How many lines the text begins with, so many at most, and how many bytes they take.
fn front_of(text: &[u8], most: usize) -> (usize, usize)
    requires { most ≤ MAX_NODES }
    ensures { AreFirstLines text.now most result.0 result.1 }
{
    let mut at = 0;
    for k in 0..most {
        let (_, rest) = text.split_at(at);
        let Some(length) = line_length(rest) else {
            return (k, at);
        };
        at += length + 1;
    }
    (most, at)
}

/// So many steps, each on its line, and how many bytes they take.
pub(crate) fn read_steps(
    alloc: Global,
    sig: &Signature,
    count: usize,
    text: &[u8],
    first: u64,
) -> Result<(Trace, usize), TextFault>
    requires names { IsSignature sig.now }
    requires count { count ≤ MAX_NODES }
    requires first { first ≤ 10000 }
    ensures read { IfOk result (λ p. BeginsWith (Steps sig.now count) text.now p.0 count (drop p.1 text.now)) }
    ensures size { IfOk result (λ p. p.1 ≤ length text.now) }
    ensures fault { IfErr result (IsSectionFault (Steps sig.now count) text.now first) }
{
    let (found, size) = front_of(text, count);
    let (front, _) = text.split_at(size);
    match read_trace(alloc, sig, front) {
        Ok(trace) => {
            if found < count {
                return Err(TextFault::BadText(first + found as u64));
            }
            Ok((trace, size))
        }
        Err(TextFault::BadText(number)) => Err(TextFault::BadText(first + (number - 1))),
        Err(TextFault::Memory) => Err(TextFault::Memory),
    }
}
