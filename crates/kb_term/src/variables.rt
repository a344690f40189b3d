// The variables of a term: bounds, the greatest, and renaming apart.
ghost use Rattle.std.specs.Prelude.{ℕ, ◌≡◌, ◌≤◌, ◌+◌, ◌↔◌, IfOk, IsTrue};
ghost use Rattle.kb_term.specs.Tree.{HasVariablesBelow};
ghost use Rattle.kb_term.specs.Substitution.{rename};
ghost use Rattle.kb_term.specs.Rule.{IsRuleBelow, apart as rule_apart};
ghost use Rattle.kb_term.specs.View.{tree_of};

use crate::memory::Memory;
use crate::rule::Rule;
use crate::term::{Term, Terms};
use std::alloc::Global;

/// One more than the greatest variable of the term; 0 where it has no variable.
pub fn variable_bound(t: &Term) -> u32
    ensures { (b : ℕ) → (result ≤ b) ↔ HasVariablesBelow b (tree_of t.now) }
{
    match t {
        Term::Var(n) => u32::from(*n) + 1,
        Term::App(_, arguments) => {
            let mut bound = 0;
            for argument in &arguments.items {
                bound = variable_bound(argument).max(bound);
            }
            bound
        }
    }
}

/// Whether each variable of the term is below the bound.
pub fn has_variables_below(bound: u32, t: &Term) -> bool
    ensures { IsTrue result ↔ HasVariablesBelow bound (tree_of t.now) }
{
    variable_bound(t) <= bound
}

/// Whether each variable of the rule is below the bound.
pub fn is_rule_below(bound: u32, rule: &Rule) -> bool
    ensures { IsTrue result ↔ IsRuleBelow bound rule.now }
{
    has_variables_below(bound, rule.left()) && has_variables_below(bound, rule.right())
}

/// The rule with 64 added to the number of each variable, so that it shares none with a rule whose variables are below 64.
pub fn apart(alloc: Global, rule: &Rule) -> Result<Rule, Memory>
    requires { IsRuleBelow 64 rule.now }
    ensures { IfOk result (λ other. other ≡ rule_apart rule.now) }
{
    let left = shifted(alloc, rule.left())?;
    let right = shifted(alloc, rule.right())?;
    Ok(Rule::new(left, right))
}

fn shifted(alloc: Global, t: &Term) -> Result<Term, Memory>
    requires { HasVariablesBelow 64 (tree_of t.now) }
    ensures { IfOk result (λ u. tree_of u ≡ rename (λ n. n + 64) (tree_of t.now)) }
{
    match t {
        Term::Var(n) => Ok(Term::Var(*n + 64)),
        Term::App(f, arguments) => {
            let mut items = Vec::with_capacity(alloc, arguments.items.len())?;
            for argument in &arguments.items {
                items.push(shifted(alloc, argument)?)?;
            }
            Ok(Term::App(*f, Terms { items }))
        }
    }
}
