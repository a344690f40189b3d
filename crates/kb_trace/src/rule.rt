// Which ordered pairs of terms are rules.
ghost use Rattle.std.specs.Prelude.{ℕ, ◌↔◌, IsTrue, Contains};
ghost use Rattle.kb_term.specs.Tree.{variables_of};
ghost use Rattle.kb_term.specs.Rule.{IsRule};
ghost use Rattle.kb_term.specs.View.{tree_of};

use kb_term::{Rule, Term, variable_bound};

/// Whether the left side is no variable and holds every variable of the right side.
pub(crate) fn is_rule(rule: &Rule) -> bool
    ensures { IsTrue result ↔ IsRule rule.now }
{
    match rule.left() {
        Term::Var(_) => false,
        Term::App(_, _) => holds_variables(rule.left(), rule.right()),
    }
}

/// Whether each variable of the second term stands in the first.
///
/// It goes over both terms once for each number below the second term's variables.
fn holds_variables(left: &Term, right: &Term) -> bool
    ensures { IsTrue result ↔ ((n : ℕ) → Contains (variables_of (tree_of right.now)) n → Contains (variables_of (tree_of left.now)) n) }
{
    for n in 0..variable_bound(right) {
        if occurs(n, right) && !occurs(n, left) {
            return false;
        }
    }
    true
}

/// Whether the variable stands in the term.
fn occurs(n: u32, t: &Term) -> bool
    ensures { IsTrue result ↔ Contains (variables_of (tree_of t.now)) n }
{
    match t {
        Term::Var(m) => u32::from(*m) == n,
        Term::App(_, arguments) => {
            let items = arguments.items();
            for k in 0..items.len() {
                if occurs(n, &items[k]) {
                    return true;
                }
            }
            false
        }
    }
}
