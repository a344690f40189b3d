// The order of a linear interpretation.
ghost use Rattle.std.specs.Prelude.{ℕ, ◌<◌, IsTrue, ◌↔◌, All};
ghost use Rattle.kb_term.specs.Rule.{Rule};
ghost use Rattle.kb_term.specs.View.{tree_of};
ghost use Rattle.kb_linear.specs.LinearOrder.{LinearGreater, linear_value};
ghost use Rattle.kb_linear.specs.Limits.{IsMeasurable, AreMeasurable, IsSmall, interpretation_of};

use crate::form::LinearForm;
use crate::interp::Interp;
use kb_term::{Rule, Term};

/// Whether the value of `s` by the first rows is always greater than that of `t` by the second.
fn exceeds(first: &[(u8, Vec<u8>)], s: &Term, second: &[(u8, Vec<u8>)], t: &Term) -> bool
    requires first_small { IsSmall (interpretation_of first.now) }
    requires second_small { IsSmall (interpretation_of second.now) }
    requires left { IsMeasurable (tree_of s.now) }
    requires right { IsMeasurable (tree_of t.now) }
    ensures { IsTrue result ↔ ((a : ℕ → ℕ) → linear_value (interpretation_of second.now) a (tree_of t.now) < linear_value (interpretation_of first.now) a (tree_of s.now)) }
{
    let mut left = LinearForm::new();
    left.add(first, s, 1);
    let mut right = LinearForm::new();
    right.add(second, t, 1);
    left.exceeds(&right)
}

/// Whether under every assignment of natural numbers the value of `s` is greater than that of `t`.
///
/// Both values are linear in the variables, so this is decided by their constants and coefficients.
pub fn linear_greater(i: &Interp, s: &Term, t: &Term) -> bool
    requires left { IsMeasurable (tree_of s.now) }
    requires right { IsMeasurable (tree_of t.now) }
    ensures { IsTrue result ↔ LinearGreater i.now (tree_of s.now) (tree_of t.now) }
{
    let rows = i.rows();
    exceeds(rows, s, rows, t)
}

/// Whether the left side of each rule by the high rows always exceeds its right side by the low ones.
///
/// Where it doesn't, nothing between the low and the high rows orients the rules.
pub(crate) fn may_orient(low: &[(u8, Vec<u8>)], high: &[(u8, Vec<u8>)], rules: &[Rule]) -> bool
    requires low_small { IsSmall (interpretation_of low.now) }
    requires high_small { IsSmall (interpretation_of high.now) }
    requires measurable { AreMeasurable rules.now }
    ensures { IsTrue result ↔ All (λ (rule : Rule). (a : ℕ → ℕ) → linear_value (interpretation_of low.now) a rule.right < linear_value (interpretation_of high.now) a rule.left) rules.now }
{
    for rule in rules {
        if !exceeds(high, rule.left(), low, rule.right()) {
            return false;
        }
    }
    true
}
