// Normal forms with the steps that lead to them.
ghost use Rattle.std.specs.Prelude.{◌≡◌, ◌≢◌, ◌+◌, ◌<◌, ◌^◌, length, IfOk};
ghost use Rattle.kb_term.specs.View.{tree_of};
ghost use Rattle.kb_term.specs.declared.limit.Limit.TheVariants as limits;
ghost use Rattle.kb_decide.specs.Deciding.{IsLimitReason};
ghost use Rattle.kb_decide.specs.Running.{IsOver, IsRun};

use crate::decision::{Line, Reason};
use kb_rewrite::{MAX_STEPS, Redex, System, step};
use kb_term::{Limit, Memory, Term, TermFault};
use std::alloc::Global;

/// What normalising a term comes to.
#[derive(Drop)]
pub(crate) enum Run {
    /// The normal form, and the steps that lead to it.
    Form(Term, Vec<Line>),
    /// A limit is passed.
    Stopped(Reason),
}

/// The run of the strategy from the term to its normal form: while it has a redex, it is rewritten at the first position in
/// preorder at which a rule applies, by the first such rule.
pub(crate) fn normalised(alloc: Global, system: &System<'_>, t: &Term) -> Result<Run, Memory>
    requires few { length system.now < 2 ^ 32 }
    requires over { IsOver system.now (tree_of t.now) }
    ensures { IfOk result (IsRun system.now (tree_of t.now)) }
{
    let mut term = t.clone()?;
    let mut lines = Vec::new(alloc);
    for _ in 0..MAX_STEPS {
        let Some(redex) = system.first_redex(alloc, &term, false)? else {
            return Ok(Run::Form(term, lines));
        };
        match step(alloc, system.rules(), &term, &redex) {
            Ok(next) => term = next,
            Err(TermFault::Large(limit)) => return Ok(Run::Stopped(reason_of(limit))),
            Err(TermFault::Memory) => return Err(Memory),
        }
        lines.push(line_of(redex))?;
    }
    match system.first_redex(alloc, &term, false)? {
        None => Ok(Run::Form(term, lines)),
        Some(_) => Ok(Run::Stopped(Reason::Steps)),
    }
}

// The line of a redex: its position, and the number of its rule from 1.
fn line_of(redex: Redex) -> Line
    requires { redex.rule + 1 < 2 ^ 32 }
    ensures position { result.position ≡ redex.position }
    ensures rule { result.rule ≡ redex.rule + 1 }
{
    Line {
        position: redex.position,
        rule: redex.rule + 1,
    }
}

/// The reason that a limit of one term is.
pub fn reason_of(limit: Limit) -> Reason
    requires { limit ≢ limits.Variables }
    ensures { IsLimitReason limit result }
{
    match limit {
        Limit::Size => Reason::Size,
        Limit::Depth => Reason::Depth,
        Limit::Variables => unreachable!(),
    }
}
