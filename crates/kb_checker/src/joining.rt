// Whether two terms have one normal form.
ghost use Rattle.std.specs.Prelude.{IfOk, MatchOption};
ghost use Rattle.kb_term.specs.View.{tree_of};
ghost use Rattle.kb_laws.specs.Overlaps.{HaveOneNormalForm};
ghost use Rattle.kb_checker.specs.Verdicts.{FailToJoin};

use kb_rewrite::{Normal, System};
use kb_term::{Memory, Term};
use std::alloc::Global;

/// Why two terms don't have one normal form.
#[derive(Clone, Copy, Debug, PartialEq, Eq)]
pub enum Failure {
    Large,
    Steps,
    Different,
}

/// Why the two terms don't have one normal form; none where they have. The second term is normalised only where the first
/// has a normal form.
pub(crate) fn join_failure(
    alloc: Global,
    system: &System<'_>,
    s: &Term,
    t: &Term,
) -> Result<Option<Failure>, Memory>
    ensures { IfOk result (λ failure. MatchOption failure (HaveOneNormalForm system.now (tree_of s.now) (tree_of t.now)) (FailToJoin system.now (tree_of s.now) (tree_of t.now))) }
{
    let first = match system.normal_form(alloc, s)? {
        Normal::Form(u, _) => u,
        Normal::Long(_) => return Ok(Some(Failure::Steps)),
        Normal::Large(_) => return Ok(Some(Failure::Large)),
    };
    match system.normal_form(alloc, t)? {
        Normal::Form(second, _) => {
            if first == second {
                Ok(None)
            } else {
                Ok(Some(Failure::Different))
            }
        }
        Normal::Long(_) => Ok(Some(Failure::Steps)),
        Normal::Large(_) => Ok(Some(Failure::Large)),
    }
}
