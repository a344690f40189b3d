// The decisions of goals behind a good answer.
ghost use Rattle.std.specs.Prelude.{◌≡◌, ◌≤◌, IfOk, All, length};
ghost use Rattle.kb_term.specs.Signature.{IsEquationWithinLimits};
ghost use Rattle.kb_term.specs.View.{equations_of_list};
ghost use Rattle.kb_checker.specs.Answers.{IsGoodAnswer, rules_of as rules_of_answer};
ghost use Rattle.kb_goals.specs.Answering.{AreDecided, AreRight};

use kb_checker::Answer;
use kb_decide::{Decision, decide};
use kb_term::{Memory, Rule, Term};
use std::alloc::Global;

/// A copy of the rules of an answer, without the trace steps that they cite.
///
/// # Errors
///
/// Want of memory.
pub fn rules_of(alloc: Global, answer: &Answer) -> Result<Vec<Rule>, Memory>
    ensures { IfOk result (λ rules. rules.items ≡ rules_of_answer answer.now.rules) }
{
    let mut rules = Vec::new(alloc);
    for rule in answer.rules() {
        rules.push(rule.0.clone()?)?;
    }
    Ok(rules)
}

/// What the rules of a good answer say of each goal behind it: a yes says that the equations of its problem prove the goal, a no
/// that they don't. That an answer is good is what `check` says by `Accepted`; the goals that `read_goals` gives are over its
/// symbols.
///
/// # Errors
///
/// Want of memory.
pub fn decide_goals(
    alloc: Global,
    answer: &Answer,
    goals: &[(Term, Term)],
) -> Result<Vec<Decision>, Memory>
    requires good { IsGoodAnswer answer.now }
    requires goals { All (IsEquationWithinLimits answer.now.problem.signature) (equations_of_list goals.now) }
    ensures decided { IfOk result (λ decisions. AreDecided (rules_of_answer answer.now.rules) (equations_of_list goals.now) decisions.items) }
    ensures right { IfOk result (λ decisions. AreRight answer.now.problem.equations (equations_of_list goals.now) decisions.items) }
{
    answer.has_form();
    let rules = rules_of(alloc, answer)?;
    let mut decisions = Vec::new(alloc);
    for k in 0..goals.len() {
        let goal = &goals[k];
        decisions.push(decide(alloc, &rules, &goal.0, &goal.1)?)?;
    }
    Ok(decisions)
}
