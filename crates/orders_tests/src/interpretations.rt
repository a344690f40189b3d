// Worked examples over f and g, which take one argument each.
ghost use Rattle.std.specs.Prelude.{◌<◌};
ghost use Rattle.kb_linear.specs.Limits.{AreMeasurable};

use crate::building::{interpretation, one, two, two_symbols};
use kb_linear::{Interp, linear_greater, search_linear, search_linear_from};
use kb_term::{Rule, Term};
use std::alloc::Global;
use std::mem::drop;
use std::process::Abort;

/// f(f(x)) -> g(x) and g(f(x)) -> f(g(x)).
fn two_rules(rt: &impl Abort, alloc: Global) -> Vec<Rule>
    ensures { AreMeasurable result.items }
{
    let mut rules = Vec::new(alloc);
    let ff = two(rt, alloc, 0, 0);
    let g = one(rt, alloc, 1);
    rules.push(Rule::new(ff, g)).expect(rt, "memory");
    let gf = two(rt, alloc, 1, 0);
    let fg = two(rt, alloc, 0, 1);
    rules.push(Rule::new(gf, fg)).expect(rt, "memory");
    rules
}

/// x -> f(x).
fn growing_rule(rt: &impl Abort, alloc: Global) -> Vec<Rule>
    ensures { AreMeasurable result.items }
{
    let f = one(rt, alloc, 0);
    let mut rules = Vec::new(alloc);
    rules.push(Rule::new(Term::Var(0), f)).expect(rt, "memory");
    rules
}

fn is_same(found: &Option<Interp>, wanted: &Interp) -> bool {
    match found {
        Some(i) => i.rows() == wanted.rows(),
        None => false,
    }
}

#[test]
fn values_are_compared_with_their_constants(rt: HostRuntime) {
    let alloc = rt.alloc();
    let i = interpretation(&rt, alloc, 1, 2, 0, 2);
    let gf = two(&rt, alloc, 1, 0);
    let fg = two(&rt, alloc, 0, 1);
    assert!(rt; linear_greater(&i, &gf, &fg));
    assert!(rt; !linear_greater(&i, &fg, &gf));
    assert!(rt; !linear_greater(&i, &fg, &fg));
    drop(i);
    drop(gf);
    drop(fg);
}

#[test]
fn the_first_interpretation_is_found(rt: HostRuntime) {
    let alloc = rt.alloc();
    let sig = two_symbols(alloc).expect(&rt, "memory");
    let rules = two_rules(&rt, alloc);
    let found = search_linear(alloc, &sig, &rules).expect(&rt, "memory");
    drop(sig);
    drop(rules);
    let wanted = interpretation(&rt, alloc, 1, 2, 0, 2);
    assert!(rt; is_same(&found, &wanted));
    drop(found);
    let copy = Some(wanted.clone().expect(&rt, "memory"));
    assert!(rt; is_same(&copy, &wanted));
    drop(copy);
    drop(wanted);
}

#[test]
fn the_search_goes_on_from_the_first_for_fewer_rules(rt: HostRuntime) {
    let alloc = rt.alloc();
    let sig = two_symbols(alloc).expect(&rt, "memory");
    let rules = two_rules(&rt, alloc);
    if let Some(start) = search_linear(alloc, &sig, &rules).expect(&rt, "memory") {
        let found = search_linear_from(alloc, &sig, &rules, start).expect(&rt, "memory");
        let wanted = interpretation(&rt, alloc, 1, 2, 0, 2);
        assert!(rt; is_same(&found, &wanted));
        drop(found);
        drop(wanted);
    }
    drop(rules);
    drop(sig);
}

#[test]
fn no_interpretation_orients_a_growing_rule(rt: HostRuntime) {
    let alloc = rt.alloc();
    let sig = two_symbols(alloc).expect(&rt, "memory");
    let rules = growing_rule(&rt, alloc);
    let found = search_linear(alloc, &sig, &rules).expect(&rt, "memory");
    assert!(rt; found.is_none());
    drop(found);
    drop(rules);
    drop(sig);
}
