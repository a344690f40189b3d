// One step of the strategy.
ghost use Rattle.std.specs.Prelude.{◌≡◌, Some, IfOk, false};
ghost use Rattle.kb_term.specs.Position.{subtree_at};
ghost use Rattle.kb_term.specs.Substitution.{instance, substitution_of, Matches};
ghost use Rattle.kb_term.specs.View.{tree_of};
ghost use Rattle.kb_rewrite.specs.NormalForm.{MatchesAt, IsRedex};
ghost use Rattle.kb_rewrite.specs.Search.{IsStepAnswer};

use crate::redex::Redex;
use kb_match::match_term;
use kb_term::{Memory, Position, Rule, Subst, Term, TermFault, instance_of, replace, subterm};
use std::alloc::Global;

/// The term after the rule of the redex is used at its position.
///
/// `Large(Size)` where the result is larger than 512, and `Large(Depth)` where it is not and is deeper than 64. A step copies the
/// rest of the term, and makes the instance of the right side before it is tested against the limits.
pub fn step(alloc: Global, rules: &[Rule], t: &Term, r: &Redex) -> Result<Term, TermFault>
    requires { IsRedex rules.now false (tree_of t.now) r.now.position r.now.rule }
    ensures { IsStepAnswer rules.now (tree_of t.now) r.now.position r.now.rule result }
{
    let rule = &rules[r.rule as usize];
    let m = matched_at(alloc, rule.left(), t, &r.position)?;
    let made = instance_of(alloc, &m, rule.right())?;
    replace(alloc, t, &r.position, &made)
}

/// The substitution by which the pattern matches at the position.
fn matched_at(alloc: Global, pattern: &Term, t: &Term, p: &Position) -> Result<Subst, Memory>
    requires { MatchesAt (tree_of pattern.now) (tree_of t.now) p.now }
    ensures { IfOk result (λ m. subtree_at (tree_of t.now) p.now ≡ Some (instance (substitution_of m) (tree_of pattern.now))) }
{
    matched(alloc, pattern, subterm(t, p).unwrap())
}

/// The substitution by which the pattern matches the term.
pub(crate) fn matched(alloc: Global, pattern: &Term, t: &Term) -> Result<Subst, Memory>
    requires { Matches (tree_of pattern.now) (tree_of t.now) }
    ensures { IfOk result (λ m. instance (substitution_of m) (tree_of pattern.now) ≡ tree_of t.now) }
{
    let found = match_term(alloc, pattern, t)?;
    Ok(found.unwrap())
}
