// The inner rule renamed apart from the outer one.
ghost use Rattle.std.specs.Prelude.{ℕ, ◌≡◌, ◌+◌, ◌≤◌, ◌↔◌, IfOk};
ghost use Rattle.kb_term.specs.Tree.{HasVariablesBelow};
ghost use Rattle.kb_term.specs.View.{tree_of};
ghost use Rattle.kb_term.specs.Substitution.{rename};
ghost use Rattle.kb_overlap.specs.Found.{AreVariablesBelow};
ghost use Rattle.kb_overlap.specs.Overlap.{IsRenamedApart};

use kb_term::{Memory, Rule, Term, Terms, variable_bound};
use std::alloc::Global;

/// One more than the greatest variable of the rule; 0 where it has no variable.
fn rule_bound(rule: &Rule) -> u32
    ensures { (b : ℕ) → (result ≤ b) ↔ AreVariablesBelow b rule.now }
{
    variable_bound(rule.left()).max(variable_bound(rule.right()))
}

/// The term with `by` added to the number of each variable.
fn raised(alloc: Global, t: &Term, by: u16) -> Result<Term, Memory>
    requires variables { HasVariablesBelow 64 (tree_of t.now) }
    requires by { by ≤ 64 }
    ensures { IfOk result (λ u. tree_of u ≡ rename (λ n. n + by) (tree_of t.now)) }
{
    match t {
        Term::Var(n) => Ok(Term::Var(*n + by)),
        Term::App(f, arguments) => {
            let parts = arguments.items();
            let mut items = Vec::with_capacity(alloc, parts.len())?;
            for argument in parts {
                items.push(raised(alloc, argument, by)?)?;
            }
            Ok(Term::App(*f, Terms::new(items)))
        }
    }
}

/// The inner rule with its variables put right behind those of the outer one, so that a table of both has few places.
pub(crate) fn apart_from(alloc: Global, outer: &Rule, inner: &Rule) -> Result<Rule, Memory>
    requires outer_variables { AreVariablesBelow 64 outer.now }
    requires inner_variables { AreVariablesBelow 64 inner.now }
    ensures apart { IfOk result (λ renamed. IsRenamedApart outer.now inner.now renamed) }
    ensures below { IfOk result (λ renamed. AreVariablesBelow 128 renamed) }
{
    let by = rule_bound(outer) as u16;
    let left = raised(alloc, inner.left(), by)?;
    let right = raised(alloc, inner.right(), by)?;
    Ok(Rule::new(left, right))
}
