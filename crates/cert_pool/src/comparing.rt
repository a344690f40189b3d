// Comparing signatures and lists of rules.
ghost use Rattle.std.specs.Prelude.{◌≡◌, ◌<◌, length, All, Contains, IfSome, IsTrue};

use kb_term::{Rule, Signature};

/// Whether both signatures are the same.
pub(crate) fn is_same_signature(a: &Signature, b: &Signature) -> bool
    ensures { IsTrue result → a.now ≡ b.now }
{
    let ours = a.symbols();
    let theirs = b.symbols();
    if ours.len() != theirs.len() {
        return false;
    }
    for i in 0..ours.len() {
        if ours[i].1 != theirs[i].1 || ours[i].0.as_slice() != theirs[i].0.as_slice() {
            return false;
        }
    }
    true
}

/// Whether each of some rules is one of these rules. Where they come in one order, they are found side by side.
pub(crate) fn are_among(some: &[Rule], rules: &[Rule]) -> bool
    ensures { IsTrue result → All (Contains rules.now) some.now }
{
    let mut next = 0;
    for i in 0..some.len() {
        match place_from(&some[i], rules, next) {
            Some(place) => next = place + 1,
            None => return false,
        }
    }
    true
}

// Where the rule stands among these, looked for from a place on, and then before it.
fn place_from(rule: &Rule, rules: &[Rule], from: usize) -> Option<usize>
    ensures there { IfSome result (λ place. place < length rules.now) }
    ensures found { IfSome result (λ _. Contains rules.now rule.now) }
{
    for place in from..rules.len() {
        if is_same_rule(rule, &rules[place]) {
            return Some(place);
        }
    }
    for place in 0..from.min(rules.len()) {
        if is_same_rule(rule, &rules[place]) {
            return Some(place);
        }
    }
    None
}

fn is_same_rule(a: &Rule, b: &Rule) -> bool
    ensures { IsTrue result → a.now ≡ b.now }
{
    *a.left() == *b.left() && *a.right() == *b.right()
}
