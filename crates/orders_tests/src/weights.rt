// Worked examples over f and g.
ghost use Rattle.std.specs.Prelude.{◌<◌, ◌≤◌, IfOk, length};
ghost use Rattle.kb_term.specs.View.{tree_of};
ghost use Rattle.kb_linear.specs.Limits.{IsMeasurable, AreMeasurable};

use crate::building::{one, two, two_symbols};
use kb_kbo::{Kbo, MIN_WEIGHT, kbo_greater, search_kbo, search_kbo_from};
use kb_lpo::Precedence;
use kb_term::{Memory, Rule, Signature, Symbol, Term, Terms};
use std::alloc::Global;
use std::mem::drop;
use std::process::Abort;

/// g(x, x).
fn twice(rt: &impl Abort, alloc: Global) -> Term
    ensures { IsMeasurable (tree_of result) }
{
    let mut items = Vec::new(alloc);
    items.push(Term::Var(0)).expect(rt, "memory");
    items.push(Term::Var(0)).expect(rt, "memory");
    Term::App(Symbol(1), Terms::new(items))
}

/// f(g(x)) -> g(f(x)) and g(g(x)) -> f(x).
fn swapping_rules(rt: &impl Abort, alloc: Global) -> Vec<Rule>
    ensures { AreMeasurable result.items }
{
    let mut rules = Vec::new(alloc);
    let fg = two(rt, alloc, 0, 1);
    let gf = two(rt, alloc, 1, 0);
    rules.push(Rule::new(fg, gf)).expect(rt, "memory");
    let gg = two(rt, alloc, 1, 1);
    let f = one(rt, alloc, 0);
    rules.push(Rule::new(gg, f)).expect(rt, "memory");
    rules
}

/// f(f(x)) -> g(x, x).
fn doubling_rule(rt: &impl Abort, alloc: Global) -> Vec<Rule>
    ensures { AreMeasurable result.items }
{
    let mut rules = Vec::new(alloc);
    let ff = two(rt, alloc, 0, 0);
    rules
        .push(Rule::new(ff, twice(rt, alloc)))
        .expect(rt, "memory");
    rules
}

/// f weighs 1 and g weighs 1, and f is above g.
fn plain_order(rt: &impl Abort, alloc: Global) -> Kbo {
    let mut weights = Vec::new(alloc);
    weights.push(MIN_WEIGHT).expect(rt, "memory");
    weights.push(MIN_WEIGHT).expect(rt, "memory");
    let mut symbols = Vec::new(alloc);
    symbols.push(Symbol(0)).expect(rt, "memory");
    symbols.push(Symbol(1)).expect(rt, "memory");
    Kbo::new(weights, Precedence::new(symbols))
}

fn is_plain(found: &Option<Kbo>) -> bool {
    match found {
        Some(order) => {
            order.weights() == [1, 1].as_slice()
                && order.precedence().symbols() == [Symbol(0), Symbol(1)].as_slice()
        }
        None => false,
    }
}

/// The first order, found from itself on.
fn found_again(alloc: Global, sig: &Signature, rules: &[Rule]) -> Result<Option<Kbo>, Memory>
    requires few { length sig.now ≤ 24 }
    requires measurable { AreMeasurable rules.now }
{
    match search_kbo(alloc, sig, rules)? {
        Some(start) => search_kbo_from(alloc, sig, rules, start),
        None => Ok(None),
    }
}

#[test]
fn equal_weights_are_decided_by_the_precedence(rt: HostRuntime) {
    let alloc = rt.alloc();
    let sig = two_symbols(alloc).expect(&rt, "memory");
    let rules = swapping_rules(&rt, alloc);
    let found = search_kbo(alloc, &sig, &rules).expect(&rt, "memory");
    assert!(rt; is_plain(&found));
    drop(found);
    let again = found_again(alloc, &sig, &rules).expect(&rt, "memory");
    assert!(rt; is_plain(&again));
    drop(again);
    drop(rules);
    drop(sig);
}

#[test]
fn a_variable_that_is_doubled_has_no_order(rt: HostRuntime) {
    let alloc = rt.alloc();
    let sig = two_symbols(alloc).expect(&rt, "memory");
    let rules = doubling_rule(&rt, alloc);
    let found = search_kbo(alloc, &sig, &rules).expect(&rt, "memory");
    assert!(rt; found.is_none());
    drop(found);
    drop(rules);
    drop(sig);
}

#[test]
fn terms_are_compared(rt: HostRuntime) {
    let alloc = rt.alloc();
    let order = plain_order(&rt, alloc);
    let fg = two(&rt, alloc, 0, 1);
    let gf = two(&rt, alloc, 1, 0);
    assert!(rt; kbo_greater(&order, &fg, &gf));
    assert!(rt; !kbo_greater(&order, &gf, &fg));
    drop(fg);
    drop(gf);
    let ff = two(&rt, alloc, 0, 0);
    let gxx = twice(&rt, alloc);
    assert!(rt; !kbo_greater(&order, &ff, &gxx));
    drop(ff);
    drop(gxx);
    let copy = Some(order.clone().expect(&rt, "memory"));
    assert!(rt; is_plain(&copy));
    drop(copy);
    drop(order);
}
