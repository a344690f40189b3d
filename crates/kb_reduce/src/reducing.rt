// The reduction of an answer.
ghost use Rattle.std.specs.Prelude.{◌≡◌, ◌<◌, IfOk};
ghost use Rattle.kb_checker.specs.Answers.{Answer as Answer_, IsAnswer, IsGoodAnswer};
ghost use Rattle.kb_reduce.specs.Reducing.{IsReducedSystem, KeepsAllButRules};
ghost use Rattle.kb_reduce.specs.Telling.{IsReduction};
ghost use Rattle.kb_reduce.specs.declared.reduction.Reduction.{Reduction as Reduction_};

use crate::composing::{Composed, compose};
use crate::reduction::{Reduction, Why};
use crate::thinning::thin;
use kb_checker::{Answer, Checked, check, rules_alone};
use kb_term::{MAX_NODES, Memory, Rule};
use kb_trace::Trace;
use std::alloc::Global;

/// The most steps of a trace.
const MAX_TRACE: usize = MAX_NODES;

/// The answer with a reduced system: first each right side is normalised by all rules, in order, and each rewriting adds a step to
/// the trace; then, in order, each rule is left out whose left side another rule that is still there rewrites. Problem, constraints,
/// certificate and the steps that were there stay. So a complete system becomes its canonical one.
///
/// `Rejected` where `check` rejects the answer. `Unreduced` with the first rule whose right side passes a limit: normalising it takes
/// more than 10,000 steps (`Steps`) or makes a term that is larger than 512 (`Size`) or deeper than 64 (`Depth`), or else the steps added so
/// far make the trace longer than 4,096 (`Trace`).
///
/// # Errors
///
/// Want of memory.
pub fn reduce(alloc: Global, a: &Answer) -> Result<Reduction, Memory>
    ensures reduction { IfOk result (IsReduction a.now) }
    ensures good { IfOk result (λ r. (b : Answer_) → r ≡ Reduction_.Reduced b → IsGoodAnswer b) }
    ensures reduced { IfOk result (λ r. (b : Answer_) → r ≡ Reduction_.Reduced b → IsReducedSystem b.rules) }
    ensures kept { IfOk result (λ r. (b : Answer_) → r ≡ Reduction_.Reduced b → KeepsAllButRules a.now b) }
{
    if let Checked::Rejected(reason, n) = check(alloc, a)? {
        return Ok(Reduction::Rejected(reason, n));
    }
    a.has_form();
    let alone = rules_alone(alloc, a.rules())?;
    let mut steps = a.trace().clone()?.into_steps();
    let mut rules = Vec::new(alloc);
    for k in 0..a.rules().len() {
        match compose(alloc, a, &alone, k, &mut steps)? {
            Composed::Rule(rule, cited) => rules.push((rule, cited))?,
            Composed::Passed(why) => return Ok(Reduction::Unreduced(why, k as u32 + 1)),
        }
        if steps.len() > MAX_TRACE {
            return Ok(Reduction::Unreduced(Why::Trace, k as u32 + 1));
        }
    }
    thin(alloc, &mut rules)?;
    Ok(Reduction::Reduced(with_rules(alloc, a, rules, Trace::new(steps))?))
}

/// The answer with other rules and another trace.
fn with_rules(
    alloc: Global,
    a: &Answer,
    rules: Vec<(Rule, u32)>,
    trace: Trace,
) -> Result<Answer, Memory>
    requires { IsAnswer (record { problem = a.now.problem; rules = rules.items; constraints = a.now.constraints; cert = a.now.cert; trace = trace }) }
    ensures { IfOk result (λ b. b ≡ record { problem = a.now.problem; rules = rules.items; constraints = a.now.constraints; cert = a.now.cert; trace = trace }) }
{
    let problem = a.problem().clone()?;
    let constraints = a.constraints().to_vec(alloc)?;
    let cert = a.cert().clone()?;
    Ok(Answer::new(problem, rules, constraints, cert, trace))
}
