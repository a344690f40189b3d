// The decision of a goal.
ghost use Rattle.std.specs.Prelude.{◌<◌, ◌^◌, length, IfOk};
ghost use Rattle.kb_term.specs.View.{tree_of};
ghost use Rattle.kb_decide.specs.Deciding.{IsGoalFor, IsDecision};

use crate::decision::Decision;
use crate::normalising::{Run, normalised};
use kb_rewrite::System;
use kb_term::{Memory, Rule, Term};
use std::alloc::Global;

/// What the rules say of the goal `left = right`: both sides are normalised, the left one first, and the normal forms compared.
///
/// `Yes` with the steps of both sides where their normal forms are equal, `No` with both where they differ, and `Unknown` with the
/// limit that normalising the left side passes, or else the right side: 10,000 steps, or a result that is larger than 512 or deeper
/// than 64. Where the rules are confluent, `Yes` says that they prove the goal, and `No` that they don't.
///
/// The rules are indexed first, so a step doesn't go over them.
///
/// # Errors
///
/// Want of memory.
pub fn decide(alloc: Global, rules: &[Rule], left: &Term, right: &Term) -> Result<Decision, Memory>
    requires few { length rules.now < 2 ^ 32 }
    requires over { IsGoalFor rules.now (tree_of left.now) (tree_of right.now) }
    ensures { IfOk result (IsDecision rules.now (tree_of left.now) (tree_of right.now)) }
{
    let system = System::indexed(alloc, rules)?;
    decided(alloc, &system, left, right)
}

/// What the rules of the system say of the goal.
fn decided(
    alloc: Global,
    system: &System<'_>,
    left: &Term,
    right: &Term,
) -> Result<Decision, Memory>
    requires few { length system.now < 2 ^ 32 }
    requires over { IsGoalFor system.now (tree_of left.now) (tree_of right.now) }
    ensures { IfOk result (IsDecision system.now (tree_of left.now) (tree_of right.now)) }
{
    let (left_form, left_lines) = match normalised(alloc, system, left)? {
        Run::Form(form, lines) => (form, lines),
        Run::Stopped(reason) => return Ok(Decision::Unknown(reason)),
    };
    match normalised(alloc, system, right)? {
        Run::Stopped(reason) => Ok(Decision::Unknown(reason)),
        Run::Form(right_form, right_lines) => {
            if left_form == right_form {
                Ok(Decision::Yes(left_lines, right_lines))
            } else {
                Ok(Decision::No(left_form, right_form))
            }
        }
    }
}
