// What a rule can do to a term.
ghost use Rattle.std.specs.Prelude.{◌↔◌, IfOk, IsTrue};
ghost use Rattle.kb_term.specs.View.{tree_of};
ghost use Rattle.kb_rewrite.specs.NormalForm.{Encompasses, IsFound};

use kb_match::matches;
use kb_term::{Found, Memory, Rule, Term, is_variant};
use std::alloc::Global;

/// What the rule can do to the term: `Variant` where the term is a variant of the left side, else `Strict` where some subterm is
/// an instance of it, else `No`.
///
/// It tries one match at each position, in preorder, as far as the first that is found.
pub fn found(alloc: Global, t: &Term, rule: &Rule) -> Result<Found, Memory>
    ensures { IfOk result (IsFound (tree_of t.now) rule.now) }
{
    if is_variant(t, rule.left()) {
        return Ok(Found::Variant);
    }
    if encompasses(alloc, t, rule.left())? {
        Ok(Found::Strict)
    } else {
        Ok(Found::No)
    }
}

/// Whether the pattern matches a subterm.
fn encompasses(alloc: Global, t: &Term, pattern: &Term) -> Result<bool, Memory>
    ensures { IfOk result (λ b. IsTrue b ↔ Encompasses (tree_of t.now) (tree_of pattern.now)) }
{
    if matches(alloc, pattern, t)? {
        return Ok(true);
    }
    match t {
        Term::Var(_) => Ok(false),
        Term::App(_, arguments) => {
            let items = arguments.items();
            for k in 0..items.len() {
                if encompasses(alloc, &items[k], pattern)? {
                    return Ok(true);
                }
            }
            Ok(false)
        }
    }
}
