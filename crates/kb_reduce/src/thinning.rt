// Rules that are left out, since other rules rewrite their left sides.
ghost use Rattle.std.specs.Prelude.{◌≡◌, ◌+◌, ◌<◌, ◌↔◌, ℕ, [], ◌++◌, Some, IfOk, IsTrue, OnOk, length, take, drop, slice_get};
ghost use Rattle.kb_term.specs.Rule.{Rule as Rule_};
ghost use Rattle.kb_term.specs.View.{tree_of};
ghost use Rattle.kb_rewrite.specs.NormalForm.{HasRedex};
ghost use Rattle.kb_checker.specs.Answers.{rules_of};
ghost use Rattle.kb_reduce.specs.Reducing.{IsCovered, IsThinned};

use kb_rewrite::found;
use kb_term::{Found, Memory, Rule, Term};
use std::alloc::Global;

/// Leaves out, in order, each rule whose left side another rule that is still there rewrites.
pub(crate) fn thin(alloc: Global, rules: &mut Vec<(Rule, u32)>) -> Result<(), Memory>
    ensures { OnOk result (IsThinned [] rules.old.items rules.new.items) }
{
    let mut k = 0;
    for _ in 0..rules.len() {
        if is_covered(alloc, rules, k)? {
            leave_out(rules, k);
        } else {
            k += 1;
        }
    }
    Ok(())
}

/// Leaves out the rule with the index k.
fn leave_out(rules: &mut Vec<(Rule, u32)>, k: usize)
    requires { k < length rules.old.items }
    ensures { rules.new.items ≡ take k rules.old.items ++ drop (k + 1) rules.old.items }
{
    rules.remove(k);
}

/// Whether a rule but the one with the index k has a redex in its left side.
fn is_covered(alloc: Global, rules: &[(Rule, u32)], k: usize) -> Result<bool, Memory>
    requires { k < length rules.now }
    ensures { IfOk result (λ b. (r : Rule_ × ℕ) → slice_get rules.now k ≡ Some r → IsTrue b ↔ IsCovered (take k rules.now ++ drop (k + 1) rules.now) r) }
{
    let left = rules[k].0.left();
    if has_redex(alloc, &rules[..k], left)? {
        return Ok(true);
    }
    let behind = has_redex(alloc, &rules[k + 1..], left)?;
    Ok(behind)
}

/// Whether some rule has a redex in the term.
fn has_redex(alloc: Global, rules: &[(Rule, u32)], t: &Term) -> Result<bool, Memory>
    ensures { IfOk result (λ b. IsTrue b ↔ HasRedex (rules_of rules.now) (tree_of t.now)) }
{
    for rule in rules {
        match found(alloc, t, &rule.0)? {
            Found::No => {}
            Found::Variant | Found::Strict => return Ok(true),
        }
    }
    Ok(false)
}
