// Replaying a trace.
ghost use Rattle.std.specs.Prelude.{◌≡◌, All, IfOk, map, Err};
ghost use Rattle.kb_term.specs.Pair.{ArePairWithin};
ghost use Rattle.kb_overlap.specs.Trace.{IsRightTrace};
ghost use Rattle.kb_trace.specs.Steps.{pairs_of, ArePairsWithin, IsFirstBadStep};

use crate::fault::TraceFault;
use crate::right::is_right;
use crate::trace::Trace;
use kb_term::{Pair, Problem};
use std::alloc::Global;

/// The pairs of the trace, each step of which is right: it follows from the equations of the problem and the pairs of
/// steps with smaller numbers.
///
/// A cited step is found by its number, so each step takes the time of one rewrite step or one overlap.
///
/// # Errors
///
/// `BadStep` with the number of the first step that isn't right, from 1, and want of memory.
pub fn replay_trace(alloc: Global, p: &Problem, t: &Trace) -> Result<Vec<Pair>, TraceFault>
    requires { ArePairsWithin t.now }
    ensures right { IfOk result (λ pairs. IsRightTrace p.now.equations t.now) }
    ensures pairs { IfOk result (λ pairs. pairs.items ≡ pairs_of t.now) }
    ensures bad { (n : _) → result ≡ Err (TraceFault.BadStep n) → IsFirstBadStep p.now.equations t.now n }
{
    let equations = p.equations();
    let steps = t.steps();
    let mut pairs = Vec::new(alloc);
    for k in 0..steps.len() {
        let step = &steps[k];
        if !is_right(alloc, equations, &pairs, step.origin(), step.pair())? {
            return Err(TraceFault::BadStep((k + 1) as u64));
        }
        pairs.push(step.pair().clone()?)?;
    }
    Ok(pairs)
}
