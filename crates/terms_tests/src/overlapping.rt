// Overlaps of rules, and those that are too large.
ghost use Rattle.std.specs.Prelude.{IsTrue};
ghost use Rattle.kb_overlap.specs.Found.{AreVariablesBelow};
ghost use Rattle.kb_term.specs.FewArguments.{HasFewArguments};

use crate::building::{constant, unary};
use kb_overlap::{Overlap, overlaps};
use kb_term::{Limit, Memory, Rule, Term, compare, has_few_arguments, has_variables_below};
use std::alloc::Global;
use std::cmp::Ordering;
use std::mem::drop;
use std::process::Abort;

/// The rule f(..f(x1)) -> a with f applied so many times.
fn nested(rt: &impl Abort, alloc: Global, times: u32) -> Rule {
    let mut left = Term::Var(0);
    for k in 0..times {
        left = unary(rt, alloc, 0, left);
    }
    Rule::new(left, constant(alloc, 1))
}

fn is_ready(rule: &Rule) -> bool
    ensures variables { IsTrue result → AreVariablesBelow 64 rule.now }
    ensures arguments { IsTrue result → HasFewArguments rule.now.left }
{
    if has_variables_below(64, rule.left()) {
        if has_variables_below(64, rule.right()) {
            return has_few_arguments(rule.left());
        }
    }
    false
}

fn listed(alloc: Global, outer: &Rule, inner: &Rule, same: bool) -> Result<Vec<Overlap>, Memory> {
    if is_ready(outer) {
        if is_ready(inner) {
            return overlaps(alloc, outer, inner, same);
        }
    }
    Err(Memory)
}

/// Whether the overlap's sides are these terms.
fn has_sides(overlap: &Overlap, first: &Term, second: &Term) -> bool {
    match &overlap.sides {
        Ok((a, b)) => {
            compare(a, first) == Ordering::Equal && compare(b, second) == Ordering::Equal
        }
        Err(_) => false,
    }
}

#[test]
fn a_rule_overlaps_itself_below_the_root(rt: HostRuntime) {
    let alloc = rt.alloc();
    let rule = nested(&rt, alloc, 2);
    let second = unary(&rt, alloc, 0, constant(alloc, 1));
    let found = listed(alloc, &rule, &rule, true).expect(&rt, "memory");
    assert_eq!(rt; found.len(), 1);
    for overlap in &found {
        assert!(rt; overlap.position.steps() == [1].as_slice());
        assert!(rt; has_sides(overlap, rule.right(), &second));
    }
    drop(found);
    drop(second);
    drop(rule);
}

#[test]
fn two_rules_overlap_at_the_root_too(rt: HostRuntime) {
    let alloc = rt.alloc();
    let outer = nested(&rt, alloc, 2);
    let inner = nested(&rt, alloc, 1);
    let found = listed(alloc, &outer, &inner, false).expect(&rt, "memory");
    assert_eq!(rt; found.len(), 2);
    drop(found);
    drop(outer);
    drop(inner);
}

#[test]
fn a_peak_of_depth_65_is_too_deep(rt: HostRuntime) {
    let alloc = rt.alloc();
    let rule = nested(&rt, alloc, 40);
    let found = listed(alloc, &rule, &rule, true).expect(&rt, "memory");
    assert_eq!(rt; found.len(), 39);
    for overlap in &found {
        if overlap.position.steps().len() < 24 {
            assert!(rt; matches!(&overlap.sides, Ok(_)));
        } else {
            assert!(rt; matches!(&overlap.sides, Err(Limit::Depth)));
        }
    }
    drop(found);
    drop(rule);
}
