// Worked examples, and the search against all precedences of three symbols.
ghost use Rattle.std.specs.Prelude.{◌≡◌, ◌<◌, ◌≤◌, IfOk, length};

use kb_lpo::{Precedence, lpo_greater, search_lpo, search_lpo_from};
use kb_term::{Memory, Rule, Signature, Symbol, Term, Terms};
use std::alloc::Global;
use std::mem::drop;
use std::process::Abort;

/// The symbols a, b, c, .. with these arities.
fn signature(alloc: Global, arities: &[u8]) -> Result<Signature, Memory>
    requires { length arities.now ≤ 24 }
    ensures { IfOk result (λ sig. length sig ≡ length arities.now) }
{
    let mut symbols = Vec::new(alloc);
    for f in 0..arities.len() {
        let mut name = Vec::new(alloc);
        name.push(b'a' + f as u8)?;
        symbols.push((name, arities[f]))?;
    }
    Ok(Signature::new(symbols))
}

/// The signature of f, g and h.
fn three_symbols(alloc: Global) -> Result<Signature, Memory>
    ensures { IfOk result (λ sig. length sig ≡ 3) }
{
    signature(alloc, &[1, 1, 2])
}

fn precedence(rt: &impl Abort, alloc: Global, symbols: &[u8]) -> Precedence {
    let mut listed = Vec::new(alloc);
    for f in symbols {
        listed.push(Symbol(*f)).expect(rt, "memory");
    }
    Precedence::new(listed)
}

fn unary(alloc: Global, f: u8, t: Term) -> Result<Term, Memory> {
    let mut items = Vec::new(alloc);
    items.push(t)?;
    Ok(Term::App(Symbol(f), Terms::new(items)))
}

fn binary(alloc: Global, f: u8, s: Term, t: Term) -> Result<Term, Memory> {
    let mut items = Vec::new(alloc);
    items.push(s)?;
    items.push(t)?;
    Ok(Term::App(Symbol(f), Terms::new(items)))
}

/// The symbols f and g applied in turn to a variable, as 0 and 1 say, the outermost first.
fn word(rt: &impl Abort, alloc: Global, symbols: &[u8]) -> Term {
    let mut t = Term::Var(0);
    for f in symbols.iter().rev() {
        t = unary(alloc, *f, t).expect(rt, "memory");
    }
    t
}

/// Adds the rule from the one word to the other.
fn push_words(rt: &impl Abort, alloc: Global, rules: &mut Vec<Rule>, left: &[u8], right: &[u8]) {
    let rule = Rule::new(word(rt, alloc, left), word(rt, alloc, right));
    rules.push(rule).expect(rt, "memory");
}

fn next(seed: &mut u32, bound: u32) -> u32
    requires { 1 ≤ bound }
    ensures { result < bound }
{
    *seed = seed.wrapping_mul(1664525).wrapping_add(1013904223);
    (*seed >> 16) % bound
}

/// A term of f, g, h and two variables, at most so deep.
fn some_term(alloc: Global, seed: &mut u32, depth: u8) -> Result<Term, Memory> {
    if depth == 0 {
        return Ok(Term::Var(next(seed, 2) as u16));
    }
    match next(seed, 6) {
        0 => Ok(Term::Var(next(seed, 2) as u16)),
        1 | 2 => unary(alloc, 0, some_term(alloc, seed, depth - 1)?),
        3 | 4 => unary(alloc, 1, some_term(alloc, seed, depth - 1)?),
        _ => {
            let s = some_term(alloc, seed, depth - 1)?;
            let t = some_term(alloc, seed, depth - 1)?;
            binary(alloc, 2, s, t)
        }
    }
}

fn some_rules(rt: &impl Abort, alloc: Global, seed: &mut u32, count: u32) -> Vec<Rule> {
    let mut rules = Vec::new(alloc);
    for _ in 0..count {
        let left = some_term(alloc, seed, 3).expect(rt, "memory");
        let right = some_term(alloc, seed, 1).expect(rt, "memory");
        rules.push(Rule::new(left, right)).expect(rt, "memory");
    }
    rules
}

/// Whether the precedence orients all rules.
fn orients(prec: &Precedence, rules: &[Rule]) -> bool {
    rules
        .iter()
        .all(|rule| lpo_greater(prec, rule.left(), rule.right()))
}

/// The first of the six precedences that orients all rules.
fn first_of_all(rt: &impl Abort, alloc: Global, rules: &[Rule]) -> Option<Precedence> {
    for symbols in [
        [0, 1, 2],
        [0, 2, 1],
        [1, 0, 2],
        [1, 2, 0],
        [2, 0, 1],
        [2, 1, 0],
    ] {
        let prec = precedence(rt, alloc, &symbols);
        if orients(&prec, rules) {
            return Some(prec);
        }
        drop(prec);
    }
    None
}

/// The first precedence, found from the first one for the rules before a place on.
fn first_in_two_steps(
    alloc: Global,
    sig: &Signature,
    rules: &[Rule],
    place: usize,
) -> Result<Option<Precedence>, Memory>
    requires few { length sig.now ≤ 24 }
    requires within { place ≤ length rules.now }
{
    match search_lpo(alloc, sig, &rules[..place])? {
        Some(start) => search_lpo_from(alloc, sig, rules, start),
        None => Ok(None),
    }
}

fn is_same_answer(a: &Option<Precedence>, b: &Option<Precedence>) -> bool {
    match (a, b) {
        (None, None) => true,
        (Some(p), Some(q)) => p.symbols() == q.symbols(),
        (_, _) => false,
    }
}

/// Whether the search from nothing and the one in two steps both find what is wanted.
fn are_found(
    rt: &impl Abort,
    alloc: Global,
    sig: &Signature,
    rules: &[Rule],
    wanted: &Option<Precedence>,
) -> bool
    requires { length sig.now ≤ 24 }
{
    let whole = search_lpo(alloc, sig, rules).expect(rt, "memory");
    let steps = first_in_two_steps(alloc, sig, rules, rules.len() / 2).expect(rt, "memory");
    let are_same = is_same_answer(&whole, wanted) && is_same_answer(&steps, wanted);
    drop(whole);
    drop(steps);
    are_same
}

/// Whether each search finds what trying all precedences does, on so many sets of rules; and how many have an answer.
fn agreements(rt: &impl Abort, alloc: Global, sets: u32) -> (bool, u32) {
    let sig = three_symbols(alloc).expect(rt, "memory");
    let mut seed = 7;
    let mut found = 0;
    let mut agree = true;
    for n in 0..sets {
        let rules = some_rules(rt, alloc, &mut seed, 1 + n % 3);
        let wanted = first_of_all(rt, alloc, &rules);
        if !are_found(rt, alloc, &sig, &rules, &wanted) {
            agree = false;
        }
        if wanted.is_some() {
            found += 1;
        }
        drop(wanted);
        drop(rules);
    }
    drop(sig);
    (agree, found)
}

/// Whether the precedence of these symbols is the answer.
fn is_precedence(answer: &Option<Precedence>, symbols: &[Symbol]) -> bool {
    match answer {
        Some(prec) => prec.symbols() == symbols,
        None => false,
    }
}

#[test]
fn a_greater_symbol_makes_the_term_greater(rt: HostRuntime) {
    let alloc = rt.alloc();
    let prec = precedence(&rt, alloc, &[0, 1]);
    let fg = word(&rt, alloc, &[0, 1]);
    let gf = word(&rt, alloc, &[1, 0]);
    assert!(rt; lpo_greater(&prec, &fg, &gf));
    assert!(rt; !lpo_greater(&prec, &gf, &fg));
    drop(prec);
    drop(fg);
    drop(gf);
}

#[test]
fn the_first_precedence_is_found(rt: HostRuntime) {
    let alloc = rt.alloc();
    let sig = three_symbols(alloc).expect(&rt, "memory");
    let mut rules = Vec::new(alloc);
    let left = binary(alloc, 2, Term::Var(0), Term::Var(1)).expect(&rt, "memory");
    let right = word(&rt, alloc, &[1]);
    rules.push(Rule::new(left, right)).expect(&rt, "memory");
    let found = search_lpo(alloc, &sig, &rules).expect(&rt, "memory");
    assert!(rt; is_precedence(&found, &[Symbol(0), Symbol(2), Symbol(1)]));
    drop(found);
    let last = Rule::new(word(&rt, alloc, &[1]), word(&rt, alloc, &[0]));
    rules.push(last).expect(&rt, "memory");
    let later = first_in_two_steps(alloc, &sig, &rules, 1).expect(&rt, "memory");
    assert!(rt; is_precedence(&later, &[Symbol(2), Symbol(1), Symbol(0)]));
    let copied: Result<_, _> = later.clone();
    let copy = copied.expect(&rt, "memory");
    assert!(rt; is_same_answer(&copy, &later));
    drop(copy);
    drop(later);
    drop(rules);
    drop(sig);
}

#[test]
fn rules_that_need_f_above_g_and_g_above_f_have_none(rt: HostRuntime) {
    let alloc = rt.alloc();
    let sig = three_symbols(alloc).expect(&rt, "memory");
    let mut rules = Vec::new(alloc);
    push_words(&rt, alloc, &mut rules, &[0, 0], &[1]);
    push_words(&rt, alloc, &mut rules, &[1, 0], &[0, 1]);
    let found = search_lpo(alloc, &sig, &rules).expect(&rt, "memory");
    assert!(rt; found.is_none());
    drop(found);
    drop(rules);
    drop(sig);
}

/// The rules by which eleven symbols select from pairs of their own, of which no precedence asks anything.
fn selectors(rt: &impl Abort, alloc: Global) -> Vec<Rule> {
    let mut rules = Vec::new(alloc);
    for f in 2..13u8 {
        let pair = binary(alloc, f + 11, Term::Var(0), Term::Var(1)).expect(rt, "memory");
        let left = unary(alloc, f, pair).expect(rt, "memory");
        rules
            .push(Rule::new(left, Term::Var(0)))
            .expect(rt, "memory");
    }
    rules
}

#[test]
fn symbols_that_no_choice_concerns_do_not_hide_a_conflict(rt: HostRuntime) {
    let alloc = rt.alloc();
    let sig = signature(alloc, &[1; 24]).expect(&rt, "memory");
    let mut rules = selectors(&rt, alloc);
    push_words(&rt, alloc, &mut rules, &[1, 1], &[0, 0]);
    let found = search_lpo(alloc, &sig, &rules).expect(&rt, "memory");
    let wanted = Some(precedence(
        &rt,
        alloc,
        &[
            1, 0, 2, 3, 4, 5, 6, 7, 8, 9, 10, 11, 12, 13, 14, 15, 16, 17, 18, 19, 20, 21, 22, 23,
        ],
    ));
    assert!(rt; is_same_answer(&found, &wanted));
    drop(found);
    drop(wanted);
    push_words(&rt, alloc, &mut rules, &[0, 0, 1], &[1, 0, 0]);
    let none = search_lpo(alloc, &sig, &rules).expect(&rt, "memory");
    assert!(rt; none.is_none());
    drop(none);
    drop(rules);
    drop(sig);
}

#[test]
fn a_variable_is_above_nothing(rt: HostRuntime) {
    let alloc = rt.alloc();
    let sig = three_symbols(alloc).expect(&rt, "memory");
    let mut rules = Vec::new(alloc);
    push_words(&rt, alloc, &mut rules, &[], &[0]);
    let found = search_lpo(alloc, &sig, &rules).expect(&rt, "memory");
    assert!(rt; found.is_none());
    drop(found);
    drop(rules);
    drop(sig);
}

#[test]
fn the_searches_agree_with_trying_all_precedences(rt: HostRuntime) {
    let (agree, found) = agreements(&rt, rt.alloc(), 400);
    assert!(rt; agree);
    assert!(rt; 100 < found);
    assert!(rt; found < 300);
}
