// Worked examples.
use crate::building::{binary, constant, unary};
use kb_match::{fits, match_term, matches, matches_are_one, matching_terms_fit};
use kb_term::{Subst, Symbol, Term, Terms};
use std::alloc::Global;
use std::mem::drop;
use std::process::Abort;

/// The constant 0 under so many times the symbol 1.
fn chain(rt: &impl Abort, alloc: Global, count: u16) -> Term {
    let mut t = constant(alloc, 0);
    for _ in 0..count {
        t = unary(rt, alloc, 1, t);
    }
    t
}

/// The symbol 1 of the symbol 2 of eight different variables, each twice.
fn eight_variables(rt: &impl Abort, alloc: Global) -> Term {
    let mut items = Vec::new(alloc);
    for _ in 0..2 {
        for n in 0..8 {
            items.push(Term::Var(n)).expect(rt, "memory");
        }
    }
    unary(rt, alloc, 1, Term::App(Symbol(2), Terms::new(items)))
}

/// An instance of that pattern of size 512, but for the last argument, a chain of the given length in place of 37.
fn eight_chains(rt: &impl Abort, alloc: Global, last: u16) -> Term {
    let mut items = Vec::new(alloc);
    for n in 0u16..7 {
        items.push(chain(rt, alloc, 27 + n)).expect(rt, "memory");
    }
    items.push(chain(rt, alloc, 37)).expect(rt, "memory");
    for n in 0u16..7 {
        items.push(chain(rt, alloc, 27 + n)).expect(rt, "memory");
    }
    items.push(chain(rt, alloc, last)).expect(rt, "memory");
    unary(rt, alloc, 1, Term::App(Symbol(2), Terms::new(items)))
}

fn gives(m: &Subst, n: u16, t: &Term) -> bool {
    match m.get(n) {
        Some(u) => *u == *t,
        None => false,
    }
}

/// Whether the pattern matches the subject, by the call that gives the entries.
fn is_matched(rt: &impl Abort, alloc: Global, pattern: &Term, subject: &Term) -> bool {
    match_term(alloc, pattern, subject)
        .expect(rt, "memory")
        .is_some()
}

#[test]
fn one_variable_is_not_two_constants(rt: HostRuntime) {
    let alloc = rt.alloc();
    let pattern = binary(&rt, alloc, 2, Term::Var(0), Term::Var(0));
    let subject = binary(&rt, alloc, 2, constant(alloc, 0), constant(alloc, 3));
    assert!(rt; !is_matched(&rt, alloc, &pattern, &subject));
    assert!(rt; fits(&pattern, &subject));
    drop(pattern);
    drop(subject);
}

#[test]
fn two_variables_are_two_constants(rt: HostRuntime) {
    let alloc = rt.alloc();
    let pattern = binary(&rt, alloc, 2, Term::Var(1), Term::Var(0));
    let subject = binary(&rt, alloc, 2, constant(alloc, 0), constant(alloc, 3));
    let found = match_term(alloc, &pattern, &subject).expect(&rt, "memory");
    drop(pattern);
    drop(subject);
    let m = found.expect(&rt, "a match");
    let first = constant(alloc, 0);
    let second = constant(alloc, 3);
    assert!(rt; m.entries().len() == 2);
    assert!(rt; gives(&m, 1, &first));
    assert!(rt; gives(&m, 0, &second));
    drop(first);
    drop(second);
    drop(m);
}

#[test]
fn eight_variables_twice_match_a_term_of_size_512(rt: HostRuntime) {
    let alloc = rt.alloc();
    let pattern = eight_variables(&rt, alloc);
    let subject = eight_chains(&rt, alloc, 37);
    let found = match_term(alloc, &pattern, &subject).expect(&rt, "memory");
    drop(subject);
    let m = found.expect(&rt, "a match");
    let last = chain(&rt, alloc, 37);
    assert!(rt; m.entries().len() == 8);
    assert!(rt; gives(&m, 7, &last));
    drop(last);
    drop(m);
    let other = eight_chains(&rt, alloc, 36);
    assert!(rt; !is_matched(&rt, alloc, &pattern, &other));
    drop(other);
    drop(pattern);
}

#[test]
fn one_variable_matches_one_constant_twice_and_not_two(rt: HostRuntime) {
    let alloc = rt.alloc();
    let pattern = binary(&rt, alloc, 2, Term::Var(4), Term::Var(4));
    let two = binary(&rt, alloc, 2, constant(alloc, 0), constant(alloc, 3));
    let one = binary(&rt, alloc, 2, constant(alloc, 3), constant(alloc, 3));
    assert!(rt; !matches(alloc, &pattern, &two).expect(&rt, "memory"));
    assert!(rt; matches(alloc, &pattern, &one).expect(&rt, "memory"));
    assert!(rt; matches(alloc, &Term::Var(1), &two).expect(&rt, "memory"));
    assert!(rt; !matches(alloc, &one, &Term::Var(1)).expect(&rt, "memory"));
    drop(pattern);
    drop(two);
    drop(one);
}

#[test]
fn another_symbol_does_not_fit(rt: HostRuntime) {
    let alloc = rt.alloc();
    let pattern = unary(&rt, alloc, 1, Term::Var(0));
    let subject = unary(&rt, alloc, 3, constant(alloc, 0));
    assert!(rt; !fits(&pattern, &subject));
    drop(pattern);
    drop(subject);
    matching_terms_fit();
    matches_are_one();
}
