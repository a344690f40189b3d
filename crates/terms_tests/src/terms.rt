// Worked examples, and the largest term in every call.
use crate::building::{binary, constant, unary};
use kb_term::{
    Limit, Memory, Pair, Position, Rule, Subst, Symbol, Term, TermFault, Terms, apart, apply,
    canonical, depth, is_rule_below, is_variant, pair_limit, push_number, replace, rule_from,
    rule_of, size, subterm, term_limit,
};
use std::alloc::Global;
use std::mem::drop;
use std::process::Abort;

fn entry(rt: &impl Abort, alloc: Global, n: u16, t: Term) -> Subst {
    let mut entries = Vec::new(alloc);
    entries.push((n, t)).expect(rt, "memory");
    Subst::new(entries)
}

/// So many variables, from the first on.
fn variables(rt: &impl Abort, alloc: Global, count: u16) -> Terms {
    let mut items = Vec::new(alloc);
    for n in 0..count {
        items.push(Term::Var(n)).expect(rt, "memory");
    }
    Terms::new(items)
}

/// A term of size 512 and depth 64 with 15 variables: 62 times `g`, of a term of size 7 and of the next.
fn largest(rt: &impl Abort, alloc: Global) -> Term {
    let mut t = Term::App(Symbol(2), variables(rt, alloc, 15));
    for _ in 0..62 {
        let six = Term::App(Symbol(1), variables(rt, alloc, 6));
        t = binary(rt, alloc, 0, six, t);
    }
    t
}

fn pair_of(rt: &impl Abort, alloc: Global, a: &Term, b: &Term) -> Pair {
    assert!(rt; pair_limit(a, b).is_none());
    canonical(alloc, a, b)
        .expect(rt, "memory")
        .expect(rt, "a pair")
}

fn shifted(alloc: Global, rule: &Rule) -> Result<Rule, Memory> {
    if is_rule_below(64, rule) {
        apart(alloc, rule)
    } else {
        Err(Memory)
    }
}

fn with(alloc: Global, t: &Term, steps: &[u8], u: &Term) -> Result<Term, TermFault> {
    let position = Position::from_steps(alloc, steps)?;
    if subterm(t, &position).is_none() {
        return Err(TermFault::Memory);
    }
    replace(alloc, t, &position, u)
}

/// Whether the rule leads from the variable to a variant of the term.
fn leads_up(rule: &Rule, n: u16, t: &Term) -> bool {
    *rule.left() == Term::Var(n) && is_variant(rule.right(), t)
}

#[test]
fn f_of_a_at_1_by_b(rt: HostRuntime) {
    let alloc = rt.alloc();
    let fa = unary(&rt, alloc, 0, constant(alloc, 1));
    let b = constant(alloc, 2);
    let changed = with(alloc, &fa, &[1], &b).expect(&rt, "a term");
    drop(fa);
    let fb = unary(&rt, alloc, 0, b);
    assert!(rt; changed == fb);
    drop(changed);
    drop(fb);
}

#[test]
fn x1_to_a_in_f_of_x1(rt: HostRuntime) {
    let alloc = rt.alloc();
    let m = entry(&rt, alloc, 0, constant(alloc, 1));
    let fx = unary(&rt, alloc, 0, Term::Var(0));
    let applied = apply(alloc, &m, &fx).expect(&rt, "a term");
    drop(m);
    drop(fx);
    let fa = unary(&rt, alloc, 0, constant(alloc, 1));
    assert!(rt; applied == fa);
    drop(applied);
    drop(fa);
}

#[test]
fn the_pair_of_f_of_x_and_x(rt: HostRuntime) {
    let alloc = rt.alloc();
    let f7 = unary(&rt, alloc, 0, Term::Var(7));
    let pair = pair_of(&rt, alloc, &f7, &Term::Var(7));
    assert!(rt; *pair.first() == Term::Var(0));
    let rule = rule_of(alloc, &pair, 1).expect(&rt, "memory");
    assert!(rt; is_variant(rule.left(), &f7));
    let other = shifted(alloc, &rule).expect(&rt, "memory");
    drop(rule);
    assert!(rt; *other.right() == Term::Var(64));
    drop(other);
    let forth = rule_from(alloc, pair, 0).expect(&rt, "memory");
    assert!(rt; leads_up(&forth, 0, &f7));
    let shared = forth.shared(alloc).expect(&rt, "memory");
    let copy = shared.clone().expect(&rt, "memory");
    let together = copy.shared(alloc).expect(&rt, "memory");
    assert!(rt; leads_up(&together, 0, &f7));
    drop(together);
    drop(shared);
    drop(f7);
}

#[test]
fn the_largest_term_changed(rt: HostRuntime) {
    let alloc = rt.alloc();
    let t = largest(&rt, alloc);
    let mut steps = [2; 63];
    steps[62] = 15;
    let changed = with(alloc, &t, &steps, &Term::Var(20)).expect(&rt, "a term");
    assert!(rt; is_variant(&changed, &t) && changed != t);
    drop(changed);
    let f0 = unary(&rt, alloc, 3, Term::Var(0));
    let larger = with(alloc, &t, &steps, &f0);
    assert!(rt; matches!(&larger, Err(TermFault::Large(Limit::Size))));
    drop(larger);
    drop(f0);
    drop(t);
}

#[test]
fn the_largest_term_applied(rt: HostRuntime) {
    let alloc = rt.alloc();
    let t = largest(&rt, alloc);
    let same = entry(&rt, alloc, 14, Term::Var(14));
    let applied = apply(alloc, &same, &t).expect(&rt, "a term");
    drop(same);
    let copy = t.clone().expect(&rt, "memory");
    assert!(rt; applied == copy);
    drop(applied);
    drop(copy);
    let larger = entry(&rt, alloc, 14, unary(&rt, alloc, 3, Term::Var(0)));
    let passed = apply(alloc, &larger, &t);
    assert!(rt; matches!(&passed, Err(TermFault::Large(Limit::Size))));
    drop(passed);
    drop(larger);
    drop(t);
}

#[test]
fn the_largest_term_in_a_pair(rt: HostRuntime) {
    let alloc = rt.alloc();
    let t = largest(&rt, alloc);
    let pair = pair_of(&rt, alloc, &t, &Term::Var(15));
    let rule = rule_of(alloc, &pair, 1).expect(&rt, "memory");
    drop(pair);
    assert!(rt; *rule.left() == t);
    let other = shifted(alloc, &rule).expect(&rt, "memory");
    assert!(rt; is_variant(other.left(), &t));
    drop(other);
    drop(rule);
    drop(t);
}

#[test]
fn the_largest_term_measured(rt: HostRuntime) {
    let t = largest(&rt, rt.alloc());
    if term_limit(&t).is_none() {
        assert_eq!(rt; size(&t), 512);
        assert_eq!(rt; depth(&t), 64);
    }
    assert!(rt; term_limit(&t).is_none());
    drop(t);
}

#[test]
fn one_too_deep(rt: HostRuntime) {
    let alloc = rt.alloc();
    let mut t = Term::Var(0);
    for _ in 0..63 {
        t = unary(&rt, alloc, 0, t);
    }
    let deeper = entry(&rt, alloc, 0, unary(&rt, alloc, 0, Term::Var(0)));
    let passed = apply(alloc, &deeper, &t);
    assert!(rt; matches!(&passed, Err(TermFault::Large(Limit::Depth))));
    drop(passed);
    drop(deeper);
    drop(t);
}

#[test]
fn a_position_grows(rt: HostRuntime) {
    let mut position = Position::root(rt.alloc());
    position.push(1).expect(&rt, "memory");
    assert_eq!(rt; position.steps(), [1].as_slice());
    drop(position);
}

#[test]
fn a_pair_has_its_sides_in_their_order(rt: HostRuntime) {
    let alloc = rt.alloc();
    let a = constant(alloc, 0);
    let b = constant(alloc, 1);
    let pair = pair_of(&rt, alloc, &b, &a);
    assert!(rt; pair.has_sides(&a, &b));
    assert!(rt; !pair.has_sides(&b, &a));
    assert!(rt; !pair.has_sides(&a, &a));
    drop(a);
    drop(b);
    drop(pair);
}

#[test]
fn a_number_is_added_in_decimal_digits(rt: HostRuntime) {
    let alloc = rt.alloc();
    let mut text = Vec::new(alloc);
    text.push(b' ').expect(&rt, "memory");
    push_number(alloc, &mut text, 18_446_744_073_709_551_615).expect(&rt, "memory");
    push_number(alloc, &mut text, 0).expect(&rt, "memory");
    assert!(rt; text.as_slice() == b" 184467440737095516150".as_slice());
    drop(text);
}
