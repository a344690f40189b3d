// Worked examples.
use crate::building::{binary, constant, unary};
use kb_rewrite::{
    Normal, Redex, first_redex, found, no_redex_is_normal, normal_form, normal_forms_are_one, step,
    strategy_rewrites,
};
use kb_term::{Found, Limit, Memory, Rule, Term, has_few_arguments};
use std::alloc::Global;
use std::mem::drop;
use std::process::Abort;

/// The rules x(b) -> a and f(a) -> b, by the symbols a, b, f, x of the numbers 0 to 3.
fn two_rules(rt: &impl Abort, alloc: Global) -> Vec<Rule> {
    let mut rules = Vec::new(alloc);
    let first = unary(rt, alloc, 3, constant(alloc, 1));
    rules
        .push(Rule::new(first, constant(alloc, 0)))
        .expect(rt, "memory");
    let second = unary(rt, alloc, 2, constant(alloc, 0));
    rules
        .push(Rule::new(second, constant(alloc, 1)))
        .expect(rt, "memory");
    rules
}

fn first(
    alloc: Global,
    rules: &[Rule],
    t: &Term,
    strict_only: bool,
) -> Result<Option<Redex>, Memory> {
    if rules.len() < 1000 && has_few_arguments(t) {
        first_redex(alloc, rules, t, strict_only)
    } else {
        Err(Memory)
    }
}

fn first_step(alloc: Global, rules: &[Rule], t: &Term) -> Option<Term> {
    if rules.len() < 1000 && has_few_arguments(t) {
        match first_redex(alloc, rules, t, false) {
            Ok(Some(redex)) => match step(alloc, rules, t, &redex) {
                Ok(u) => Some(u),
                Err(_) => None,
            },
            Ok(None) => None,
            Err(_) => None,
        }
    } else {
        None
    }
}

#[test]
fn a_left_side_is_a_variant_and_more_is_strict(rt: HostRuntime) {
    let alloc = rt.alloc();
    let left = unary(&rt, alloc, 2, constant(alloc, 0));
    let rule = Rule::new(left, constant(alloc, 1));
    let t = unary(&rt, alloc, 2, constant(alloc, 0));
    let kind = found(alloc, &t, &rule).expect(&rt, "memory");
    assert!(rt; kind == Found::Variant);
    let more = unary(&rt, alloc, 4, t);
    let strict = found(alloc, &more, &rule).expect(&rt, "memory");
    assert!(rt; strict == Found::Strict);
    drop(more);
    let other = constant(alloc, 0);
    let none = found(alloc, &other, &rule).expect(&rt, "memory");
    assert!(rt; none == Found::No);
    drop(other);
    drop(rule);
}

#[test]
fn the_redex_of_g_f_a_is_at_position_1_by_the_second_rule(rt: HostRuntime) {
    let alloc = rt.alloc();
    let rules = two_rules(&rt, alloc);
    let inner = unary(&rt, alloc, 2, constant(alloc, 0));
    let t = unary(&rt, alloc, 4, inner);
    let redex = first(alloc, &rules, &t, false).expect(&rt, "memory");
    let r = redex.expect(&rt, "a redex");
    assert!(rt; r.rule == 1);
    assert!(rt; r.position.steps() == [1u8].as_slice());
    assert!(rt; r.kind == Found::Strict);
    drop(r);
    let u = first_step(alloc, &rules, &t).expect(&rt, "a step");
    drop(rules);
    drop(t);
    let wanted = unary(&rt, alloc, 4, constant(alloc, 1));
    assert!(rt; u == wanted);
    drop(u);
    drop(wanted);
}

#[test]
fn a_variant_is_passed_over_where_strict_redexes_are_asked_for(rt: HostRuntime) {
    let alloc = rt.alloc();
    let rules = two_rules(&rt, alloc);
    let t = unary(&rt, alloc, 2, constant(alloc, 0));
    let strict = first(alloc, &rules, &t, true).expect(&rt, "memory");
    assert!(rt; strict.is_none());
    drop(strict);
    let any = first(alloc, &rules, &t, false).expect(&rt, "memory");
    assert!(rt; any.is_some());
    drop(any);
    drop(t);
    drop(rules);
    no_redex_is_normal();
    strategy_rewrites();
}

/// The symbol under itself so many times, around the term.
fn chain(rt: &impl Abort, alloc: Global, f: u8, count: u16, t: Term) -> Term {
    let mut t = t;
    for _ in 0..count {
        t = unary(rt, alloc, f, t);
    }
    t
}

/// One rule in a list.
fn rule(rt: &impl Abort, alloc: Global, left: Term, right: Term) -> Vec<Rule> {
    let mut rules = Vec::new(alloc);
    rules.push(Rule::new(left, right)).expect(rt, "memory");
    rules
}

/// The rules 0 + y -> y and s(x) + y -> s(x + y), by the symbols 0, s, + of the numbers 0 to 2.
fn sum_rules(rt: &impl Abort, alloc: Global) -> Vec<Rule> {
    let none = binary(rt, alloc, 2, constant(alloc, 0), Term::Var(1));
    let mut rules = rule(rt, alloc, none, Term::Var(1));
    let next = unary(rt, alloc, 1, Term::Var(0));
    let left = binary(rt, alloc, 2, next, Term::Var(1));
    let sum = binary(rt, alloc, 2, Term::Var(0), Term::Var(1));
    let right = unary(rt, alloc, 1, sum);
    rules.push(Rule::new(left, right)).expect(rt, "memory");
    rules
}

/// The rule d(x) -> p(x, x), by the symbols d, p of the numbers 1 and 2.
fn doubling(rt: &impl Abort, alloc: Global) -> Vec<Rule> {
    let left = unary(rt, alloc, 1, Term::Var(0));
    let right = binary(rt, alloc, 2, Term::Var(0), Term::Var(0));
    rule(rt, alloc, left, right)
}

/// Whether the normal form of the term is found in so many steps.
fn takes(rt: &impl Abort, alloc: Global, rules: &[Rule], t: &Term, steps: u32) -> bool {
    match normal_form(alloc, rules, t).expect(rt, "memory") {
        Normal::Form(_, count) => count == steps,
        Normal::Long(_) | Normal::Large(_) => false,
    }
}

/// Whether the term has so many steps that they are given up there.
fn is_long(rt: &impl Abort, alloc: Global, rules: &[Rule], t: &Term, steps: u32) -> bool {
    match normal_form(alloc, rules, t).expect(rt, "memory") {
        Normal::Long(count) => count == steps,
        Normal::Form(_, _) | Normal::Large(_) => false,
    }
}

/// The limit that a term on the way to a normal form passes.
fn limit_passed(rt: &impl Abort, alloc: Global, rules: &[Rule], t: &Term) -> Option<Limit> {
    match normal_form(alloc, rules, t).expect(rt, "memory") {
        Normal::Large(limit) => Some(limit),
        Normal::Form(_, _) | Normal::Long(_) => None,
    }
}

#[test]
fn two_constants_that_become_each_other_are_long(rt: HostRuntime) {
    let alloc = rt.alloc();
    let mut rules = rule(&rt, alloc, constant(alloc, 0), constant(alloc, 1));
    rules
        .push(Rule::new(constant(alloc, 1), constant(alloc, 0)))
        .expect(&rt, "memory");
    let t = constant(alloc, 0);
    assert!(rt; is_long(&rt, alloc, &rules, &t, 10000));
    drop(t);
    drop(rules);
}

#[test]
fn a_symbol_that_doubles_itself_passes_the_depth(rt: HostRuntime) {
    let alloc = rt.alloc();
    let left = unary(&rt, alloc, 1, Term::Var(0));
    let right = chain(&rt, alloc, 1, 2, Term::Var(0));
    let rules = rule(&rt, alloc, left, right);
    let t = unary(&rt, alloc, 1, constant(alloc, 0));
    let passed = limit_passed(&rt, alloc, &rules, &t);
    assert!(rt; matches!(passed, Some(Limit::Depth)));
    drop(t);
    drop(rules);
}

#[test]
fn two_and_two_are_four_in_three_steps(rt: HostRuntime) {
    let alloc = rt.alloc();
    let rules = sum_rules(&rt, alloc);
    let two = chain(&rt, alloc, 1, 2, constant(alloc, 0));
    let more = chain(&rt, alloc, 1, 2, constant(alloc, 0));
    let t = binary(&rt, alloc, 2, two, more);
    let four = chain(&rt, alloc, 1, 4, constant(alloc, 0));
    let normal = normal_form(alloc, &rules, &t).expect(&rt, "memory");
    assert!(rt; matches!(&normal, Normal::Form(u, 3) if *u == four));
    drop(normal);
    drop(four);
    drop(t);
    drop(rules);
    normal_forms_are_one();
}

#[test]
fn eight_doublings_make_size_511_and_nine_pass_the_size(rt: HostRuntime) {
    let alloc = rt.alloc();
    let rules = doubling(&rt, alloc);
    let eight = chain(&rt, alloc, 1, 8, constant(alloc, 0));
    assert!(rt; takes(&rt, alloc, &rules, &eight, 255));
    drop(eight);
    let nine = chain(&rt, alloc, 1, 9, constant(alloc, 0));
    let passed = limit_passed(&rt, alloc, &rules, &nine);
    assert!(rt; matches!(passed, Some(Limit::Size)));
    drop(nine);
    drop(rules);
}

#[test]
fn the_first_result_decides_and_its_size_before_its_depth(rt: HostRuntime) {
    let alloc = rt.alloc();
    let t = constant(alloc, 0);
    let long = chain(&rt, alloc, 1, 600, constant(alloc, 3));
    let rules = rule(&rt, alloc, constant(alloc, 0), long);
    let passed = limit_passed(&rt, alloc, &rules, &t);
    assert!(rt; matches!(passed, Some(Limit::Size)));
    drop(rules);
    let deep = chain(&rt, alloc, 1, 70, constant(alloc, 3));
    let mut rules = rule(&rt, alloc, constant(alloc, 0), deep);
    let left = unary(&rt, alloc, 1, Term::Var(0));
    rules
        .push(Rule::new(left, constant(alloc, 3)))
        .expect(&rt, "memory");
    let passed = limit_passed(&rt, alloc, &rules, &t);
    assert!(rt; matches!(passed, Some(Limit::Depth)));
    drop(rules);
    drop(t);
}
