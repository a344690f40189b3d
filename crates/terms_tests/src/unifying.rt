// Unifiers of terms, and those that are too large.
use crate::building::{binary, unary};
use kb_term::{Limit, Subst, Symbol, Term, Terms, compare, has_variables_below};
use kb_unify::{UnifyFault, unify};
use std::alloc::Global;
use std::cmp::Ordering;
use std::mem::drop;
use std::process::Abort;

fn node(alloc: Global, f: u8, arguments: Vec<Term>) -> Term {
    Term::App(Symbol(f), Terms::new(arguments))
}

/// The term f(.., ..) of eight doublings over x9: 255 times f, and 256 times x9.
fn doubled(rt: &impl Abort, alloc: Global) -> Term {
    let mut t = Term::Var(8);
    for k in 0..8 {
        let copy = t.clone().expect(rt, "memory");
        t = binary(rt, alloc, 1, t, copy);
    }
    t
}

/// The term p(x1, .., x8).
fn eight_variables(rt: &impl Abort, alloc: Global) -> Term {
    let mut items = Vec::new(alloc);
    for k in 0u16..8 {
        items.push(Term::Var(k)).expect(rt, "memory");
    }
    node(alloc, 0, items)
}

/// The term p(f(x2, x2), .., f(x9, x9)); where asked, its last argument is f(s(x9), s(x9)).
fn doublings(rt: &impl Abort, alloc: Global, wrapped: bool) -> Term {
    let mut items = Vec::new(alloc);
    for k in 0u16..7 {
        let item = binary(rt, alloc, 1, Term::Var(k + 1), Term::Var(k + 1));
        items.push(item).expect(rt, "memory");
    }
    let last = if wrapped {
        let a = unary(rt, alloc, 2, Term::Var(8));
        let b = unary(rt, alloc, 2, Term::Var(8));
        binary(rt, alloc, 1, a, b)
    } else {
        binary(rt, alloc, 1, Term::Var(8), Term::Var(8))
    };
    items.push(last).expect(rt, "memory");
    node(alloc, 0, items)
}

fn unified(alloc: Global, a: &Term, b: &Term) -> Option<Result<Option<Subst>, UnifyFault>> {
    if has_variables_below(128, a) {
        if has_variables_below(128, b) {
            return Some(unify(alloc, a, b));
        }
    }
    None
}

/// Whether what the first variable stands for is the term.
fn starts_with(m: &Subst, wanted: &Term) -> bool {
    match m.get(0) {
        Some(t) => compare(t, wanted) == Ordering::Equal,
        None => false,
    }
}

#[test]
fn a_variable_in_its_own_term_has_no_unifier(rt: HostRuntime) {
    let alloc = rt.alloc();
    let a = unary(&rt, alloc, 0, Term::Var(0));
    let found = unified(alloc, &a, &Term::Var(0));
    assert!(rt; matches!(&found, Some(Ok(None))));
    drop(found);
    drop(a);
}

#[test]
fn eight_doublings_make_a_term_of_size_511(rt: HostRuntime) {
    let alloc = rt.alloc();
    let a = eight_variables(&rt, alloc);
    let b = doublings(&rt, alloc, false);
    let found = unified(alloc, &a, &b).expect(&rt, "an answer");
    drop(a);
    drop(b);
    let m = found.expect(&rt, "no fault").expect(&rt, "a unifier");
    assert_eq!(rt; m.entries().len(), 8);
    let expected = doubled(&rt, alloc);
    assert!(rt; starts_with(&m, &expected));
    drop(expected);
    drop(m);
}

#[test]
fn one_size_more_is_too_large(rt: HostRuntime) {
    let alloc = rt.alloc();
    let a = eight_variables(&rt, alloc);
    let b = doublings(&rt, alloc, true);
    let found = unified(alloc, &a, &b);
    assert!(rt; matches!(&found, Some(Err(UnifyFault::Large(Limit::Size)))));
    drop(found);
    drop(a);
    drop(b);
}
