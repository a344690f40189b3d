// Goals between constants, whose decisions are known.
ghost use Rattle.std.specs.Prelude.{◌≡◌, ◌<◌, ◌∷◌, [], IfOk};
ghost use Rattle.kb_term.specs.Rule.{rule_between};
ghost use Rattle.kb_term.specs.View.{tree_of};
ghost use Rattle.kb_decide.specs.Constants.{constant as constant_tree};

use kb_decide::{Decision, Reason, decide};
use kb_term::{Memory, Rule, Symbol, Term, Terms};
use std::alloc::Global;

// The constant with this number.
fn constant(alloc: Global, f: u8) -> Term
    ensures { tree_of result ≡ constant_tree f }
{
    Term::App(Symbol(f), Terms::new(Vec::new(alloc)))
}

// The rule from one constant to another.
fn rule(alloc: Global, f: u8, g: u8) -> Rule
    ensures { result ≡ rule_between (constant_tree f) (constant_tree g) }
{
    Rule::new(constant(alloc, f), constant(alloc, g))
}

// Two such rules.
fn two_rules(alloc: Global, first: (u8, u8), second: (u8, u8)) -> Result<Vec<Rule>, Memory>
    ensures { IfOk result (λ rules. rules.items ≡ rule_between (constant_tree first.0) (constant_tree first.1) ∷ rule_between (constant_tree second.0) (constant_tree second.1) ∷ []) }
{
    let mut rules = Vec::new(alloc);
    rules.push(rule(alloc, first.0, first.1))?;
    rules.push(rule(alloc, second.0, second.1))?;
    Ok(rules)
}

// The decision of the goal between two constants, by 0 -> 1 and then by the rule from 1 to this constant.
fn decided(alloc: Global, to: u8, left: u8, right: u8) -> Result<Decision, Memory>
    requires to { to < 4 }
    requires left { left < 4 }
    requires right { right < 4 }
{
    let rules = two_rules(alloc, (0, 1), (1, to))?;
    decide(
        alloc,
        &rules,
        &constant(alloc, left),
        &constant(alloc, right),
    )
}

#[test]
fn one_normal_form_is_a_yes_with_its_steps(rt: HostRuntime) {
    match decided(rt.alloc(), 2, 0, 2).expect(&rt, "memory") {
        Decision::Yes(left, right) => {
            assert!(rt; left.len() == 2 && right.is_empty());
            assert!(rt; left[0].rule == 1 && left[1].rule == 2);
            assert!(rt; left[0].position.steps().is_empty());
        }
        _ => assert!(rt; false),
    }
}

#[test]
fn two_normal_forms_are_a_no(rt: HostRuntime) {
    match decided(rt.alloc(), 2, 0, 3).expect(&rt, "memory") {
        Decision::No(left, right) => {
            assert!(rt; left == constant(rt.alloc(), 2) && right == constant(rt.alloc(), 3));
        }
        _ => assert!(rt; false),
    }
}

#[test]
fn a_loop_is_unknown(rt: HostRuntime) {
    let decision = decided(rt.alloc(), 0, 0, 1).expect(&rt, "memory");
    assert!(rt; matches!(decision, Decision::Unknown(Reason::Steps)));
}
