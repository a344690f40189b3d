// The replay of a decision.
ghost use Rattle.std.specs.Prelude.{◌↔◌, IfOk, IsTrue};
ghost use Rattle.kb_term.specs.View.{tree_of};
ghost use Rattle.kb_rewrite.specs.NormalForm.{HoldVariables};
ghost use Rattle.kb_decide.specs.Deciding.{Replays};
ghost use Rattle.kb_decide.specs.Running.{IsStepped, IsLed};

use crate::decision::{Decision, Line};
use kb_match::match_term;
use kb_term::{Memory, Rule, Term, TermFault, instance_of, replace, subterm};
use std::alloc::Global;

/// Whether the decision is yes, and its lines are steps by the rules that lead both sides to one term through terms of at most size
/// 512 and depth 64; they needn't be those of the strategy. Then the rules prove the goal, whatever they are.
///
/// # Errors
///
/// Want of memory.
pub fn replay_decision(
    alloc: Global,
    rules: &[Rule],
    left: &Term,
    right: &Term,
    decision: &Decision,
) -> Result<bool, Memory>
    requires { HoldVariables rules.now }
    ensures { IfOk result (λ b. IsTrue b ↔ Replays rules.now (tree_of left.now) (tree_of right.now) decision.now) }
{
    let Decision::Yes(left_lines, right_lines) = decision else {
        return Ok(false);
    };
    let Some(from_left) = led(alloc, rules, left, left_lines)? else {
        return Ok(false);
    };
    let Some(from_right) = led(alloc, rules, right, right_lines)? else {
        return Ok(false);
    };
    Ok(from_left == from_right)
}

// The term to which the lines lead; none where one of them is no step, or passes a limit.
fn led(alloc: Global, rules: &[Rule], t: &Term, lines: &[Line]) -> Result<Option<Term>, Memory>
    requires { HoldVariables rules.now }
    ensures { IfOk result (IsLed rules.now lines.now (tree_of t.now)) }
{
    let mut term = t.clone()?;
    for line in lines {
        match stepped(alloc, rules, &term, line)? {
            Some(next) => term = next,
            None => return Ok(None),
        }
    }
    Ok(Some(term))
}

// The term after the line's step; none where it is none, or passes a limit.
fn stepped(alloc: Global, rules: &[Rule], t: &Term, line: &Line) -> Result<Option<Term>, Memory>
    requires { HoldVariables rules.now }
    ensures { IfOk result (IsStepped rules.now line.now (tree_of t.now)) }
{
    if line.rule == 0 {
        return Ok(None);
    }
    let Some(rule) = rules.get(line.rule as usize - 1) else {
        return Ok(None);
    };
    let Some(u) = subterm(t, &line.position) else {
        return Ok(None);
    };
    let Some(m) = match_term(alloc, rule.left(), u)? else {
        return Ok(None);
    };
    let made = instance_of(alloc, &m, rule.right())?;
    match replace(alloc, t, &line.position, &made) {
        Ok(next) => Ok(Some(next)),
        Err(TermFault::Large(_)) => Ok(None),
        Err(TermFault::Memory) => Err(Memory),
    }
}
