// Worked examples.
use crate::building::{binary, constant, unary};
use kb_term::{Rule, Term};
use rule_index::{
    RuleIndex, marks_lead_loosely_where_left_sides_agree, marks_lead_where_left_sides_fit,
};
use std::alloc::Global;
use std::mem::drop;
use std::process::Abort;

/// Adds the rule from the one term to the other under the key.
fn add(rt: &impl Abort, index: &mut RuleIndex, key: u32, left: Term, right: Term) {
    let rule = Rule::new(left, right);
    index.add(key, &rule).expect(rt, "memory");
    drop(rule);
}

/// The symbol 1 of the constant 0.
fn one(rt: &impl Abort, alloc: Global) -> Term {
    unary(rt, alloc, 1, constant(alloc, 0))
}

/// The rules f(x1) → x1, g(x1, x2) → x1, g(x1, f(a)) → a, a → f(a) and g(x1, x1) → x1 under 1, 5, 3, 4 and 2.
fn five_rules(rt: &impl Abort, alloc: Global) -> RuleIndex {
    let mut index = RuleIndex::new(alloc);
    let first = unary(rt, alloc, 1, Term::Var(0));
    add(rt, &mut index, 1, first, Term::Var(0));
    let second = binary(rt, alloc, 2, Term::Var(0), Term::Var(1));
    add(rt, &mut index, 5, second, Term::Var(0));
    let third = binary(rt, alloc, 2, Term::Var(0), one(rt, alloc));
    add(rt, &mut index, 3, third, constant(alloc, 0));
    add(rt, &mut index, 4, constant(alloc, 0), one(rt, alloc));
    let last = binary(rt, alloc, 2, Term::Var(0), Term::Var(0));
    add(rt, &mut index, 2, last, Term::Var(0));
    index
}

/// Whether the keys are those of the candidates of the term.
fn are_candidates(rt: &impl Abort, index: &RuleIndex, t: &Term, keys: &[u32]) -> bool {
    let found = index.candidates(t).expect(rt, "memory");
    found.as_slice() == keys
}

/// Whether the keys are those of the rules whose left sides may overlap the term.
fn are_overlapping(rt: &impl Abort, index: &RuleIndex, t: &Term, keys: &[u32]) -> bool {
    let found = index.overlapping(t).expect(rt, "memory");
    found.as_slice() == keys
}

#[test]
fn candidates_come_in_rising_order_and_go_with_their_keys(rt: HostRuntime) {
    let alloc = rt.alloc();
    let mut index = five_rules(&rt, alloc);
    let first = one(&rt, alloc);
    assert!(rt; are_candidates(&rt, &index, &first, &[1]));
    let two = binary(&rt, alloc, 2, constant(alloc, 0), first);
    assert!(rt; are_candidates(&rt, &index, &two, &[2, 3, 5]));
    assert!(rt; index.remove(3));
    assert!(rt; !index.remove(3));
    assert!(rt; are_candidates(&rt, &index, &two, &[2, 5]));
    assert!(rt; are_candidates(&rt, &index, &Term::Var(0), &[]));
    drop(two);
    drop(index);
    marks_lead_where_left_sides_fit();
}

#[test]
fn overlapping_left_sides_agree_where_both_have_symbols(rt: HostRuntime) {
    let alloc = rt.alloc();
    let index = five_rules(&rt, alloc);
    let inner = unary(&rt, alloc, 1, Term::Var(0));
    let first = binary(&rt, alloc, 2, inner, constant(alloc, 0));
    assert!(rt; are_overlapping(&rt, &index, &first, &[2, 5]));
    drop(first);
    let inner = unary(&rt, alloc, 1, Term::Var(0));
    let two = binary(&rt, alloc, 2, constant(alloc, 0), inner);
    assert!(rt; are_overlapping(&rt, &index, &two, &[2, 3, 5]));
    drop(two);
    assert!(rt; are_overlapping(&rt, &index, &Term::Var(0), &[1, 2, 3, 4, 5]));
    drop(index);
    marks_lead_loosely_where_left_sides_agree();
}
