// Worked examples over f and g, which take one argument each, and the search against all members of the family.
ghost use Rattle.std.specs.Prelude.{[], ◌≡◌, ◌+◌, ◌<◌, ◌≤◌, IfOk, length, All};
ghost use Rattle.kb_term.specs.Tree.{variables_of, tree_size, tree_depth};
ghost use Rattle.kb_term.specs.View.{tree_of};
ghost use Rattle.kb_linear.specs.Limits.{IsMeasurable, AreMeasurable};

use crate::building::{interpretation, letter, two_symbols};
use kb_cert::{Certificate, Family, cert_text, orients, read_cert, search, search_from};
use kb_kbo::Kbo;
use kb_lpo::Precedence;
use kb_term::{Memory, Rule, Signature, Symbol, Term, Terms};
use std::alloc::Global;
use std::mem::drop;
use std::process::Abort;

fn two_listed(rt: &impl Abort, alloc: Global, first: u8, second: u8) -> Precedence {
    let mut symbols = Vec::new(alloc);
    symbols.push(Symbol(first)).expect(rt, "memory");
    symbols.push(Symbol(second)).expect(rt, "memory");
    Precedence::new(symbols)
}

fn precedence(rt: &impl Abort, alloc: Global, first: u8, second: u8) -> Certificate {
    Certificate::Lpo(two_listed(rt, alloc, first, second))
}

/// Weights of f and of g, with a precedence.
fn weighted(rt: &impl Abort, alloc: Global, f: u8, g: u8, first: u8, second: u8) -> Certificate
    requires f_least { 1 ≤ f }
    requires f_most { f ≤ 15 }
    requires g_least { 1 ≤ g }
    requires g_most { g ≤ 15 }
{
    let mut weights = Vec::new(alloc);
    weights.push(f).expect(rt, "memory");
    weights.push(g).expect(rt, "memory");
    Certificate::Kbo(Kbo::new(weights, two_listed(rt, alloc, first, second)))
}

/// The members of the family in their order: two precedences, 64 interpretations and 18 Knuth-Bendix orders.
fn member(rt: &impl Abort, alloc: Global, n: u8) -> Certificate {
    match n {
        0 => precedence(rt, alloc, 0, 1),
        1 => precedence(rt, alloc, 1, 0),
        2..66 => {
            let m = (n - 2) % 64;
            let rows = interpretation(rt, alloc, m / 16, m / 8 % 2 + 1, m / 2 % 4, m % 2 + 1);
            Certificate::Linear(rows)
        }
        _ => {
            let m = (n - 66) % 18;
            weighted(rt, alloc, m / 6 + 1, m / 2 % 3 + 1, m % 2, 1 - m % 2)
        }
    }
}

/// The signature of f and g with one argument and of h and m with eight.
fn four_symbols(alloc: Global) -> Result<Signature, Memory>
    ensures { IfOk result (λ sig. length sig ≡ 4) }
{
    let f = letter(alloc, b'f')?;
    let g = letter(alloc, b'g')?;
    let h = letter(alloc, b'h')?;
    let m = letter(alloc, b'm')?;
    let mut symbols = Vec::new(alloc);
    symbols.push((f, 1))?;
    symbols.push((g, 1))?;
    symbols.push((h, 8))?;
    symbols.push((m, 8))?;
    Ok(Signature::new(symbols))
}

/// One more symbol applied to a term of one variable.
fn longer(alloc: Global, f: u8, t: Term) -> Result<Term, Memory>
    requires { All (λ n. n < 64) (variables_of (tree_of t)) }
    ensures variables { IfOk result (λ u. All (λ n. n < 64) (variables_of (tree_of u))) }
    ensures size { IfOk result (λ u. tree_size (tree_of u) ≡ tree_size (tree_of t) + 1) }
    ensures depth { IfOk result (λ u. tree_depth (tree_of u) ≡ tree_depth (tree_of t) + 1) }
{
    let mut items = Vec::new(alloc);
    items.push(t)?;
    Ok(Term::App(Symbol(f), Terms::new(items)))
}

/// The symbols applied in turn to a variable, the last one outermost.
fn word(alloc: Global, symbols: &[u8]) -> Result<Term, Memory>
    requires { length symbols.now ≤ 60 }
    ensures { IfOk result (λ t. IsMeasurable (tree_of t)) }
{
    let mut t = Term::Var(0);
    for f in symbols {
        t = longer(alloc, *f, t)?;
    }
    Ok(t)
}

/// Adds the rule from one word to another.
fn push_rule(rt: &impl Abort, alloc: Global, rules: &mut Vec<Rule>, left: &[u8], right: &[u8])
    requires left_short { length left.now ≤ 60 }
    requires right_short { length right.now ≤ 60 }
    requires old { AreMeasurable rules.old.items }
    ensures { AreMeasurable rules.new.items }
{
    let left = word(alloc, left).expect(rt, "memory");
    let right = word(alloc, right).expect(rt, "memory");
    rules.push(Rule::new(left, right)).expect(rt, "memory");
}

/// Some words of f and g, the innermost symbol first.
fn some_word(n: u8) -> &'static [u8]
    ensures { length result.now ≤ 60 }
{
    match n % 7 {
        0 => &[0],
        1 => &[1],
        2 => &[0, 0],
        3 => &[1, 0],
        4 => &[0, 1],
        5 => &[1, 1],
        _ => &[1, 0, 0],
    }
}

fn two_rules(rt: &impl Abort, alloc: Global, a: u8, b: u8, c: u8, d: u8) -> Vec<Rule>
    ensures { AreMeasurable result.items }
{
    let mut rules = Vec::new(alloc);
    push_rule(rt, alloc, &mut rules, some_word(a), some_word(b));
    push_rule(rt, alloc, &mut rules, some_word(c), some_word(d));
    rules
}

/// x -> f(x).
fn growing_rule(rt: &impl Abort, alloc: Global) -> Vec<Rule>
    ensures { AreMeasurable result.items }
{
    let mut rules = Vec::new(alloc);
    push_rule(rt, alloc, &mut rules, &[], &[0]);
    rules
}

/// The first of all members that orders the rules; none where none does.
fn first_of_all(rt: &impl Abort, alloc: Global, rules: &[Rule]) -> Option<Certificate>
    requires { AreMeasurable rules.now }
{
    for n in 0..84 {
        let c = member(rt, alloc, n);
        if orients(&c, rules) {
            return Some(c);
        }
        drop(c);
    }
    None
}

fn is_same(a: &Option<Certificate>, b: &Option<Certificate>) -> bool {
    match (a, b) {
        (None, None) => true,
        (Some(Certificate::Lpo(p)), Some(Certificate::Lpo(q))) => p.symbols() == q.symbols(),
        (Some(Certificate::Linear(i)), Some(Certificate::Linear(j))) => i.rows() == j.rows(),
        (Some(Certificate::Kbo(p)), Some(Certificate::Kbo(q))) => {
            p.weights() == q.weights() && p.precedence().symbols() == q.precedence().symbols()
        }
        (_, _) => false,
    }
}

/// The first member, found from itself on.
fn found_again(
    alloc: Global,
    sig: &Signature,
    rules: &[Rule],
) -> Result<Option<Certificate>, Memory>
    requires few { length sig.now ≤ 24 }
    requires measurable { AreMeasurable rules.now }
{
    match search(alloc, Family::Stated, sig, rules)? {
        Some(start) => search_from(alloc, Family::Stated, sig, rules, start),
        None => Ok(None),
    }
}

/// Whether the text of the first member is this one; empty where there is none.
fn is_first_text(
    rt: &impl Abort,
    alloc: Global,
    sig: &Signature,
    rules: &[Rule],
    text: &[u8],
) -> bool
    requires few { length sig.now ≤ 24 }
    requires measurable { AreMeasurable rules.now }
{
    match search(alloc, Family::Stated, sig, rules).expect(rt, "memory") {
        Some(c) => {
            let written = cert_text(alloc, &c, sig).expect(rt, "memory");
            drop(c);
            let is_same = written.as_slice() == text;
            drop(written);
            is_same
        }
        None => text.is_empty(),
    }
}

/// Whether the line is read, and written again.
fn is_read(alloc: Global, sig: &Signature, line: &[u8]) -> Result<bool, Memory>
    requires { length sig.now ≤ 24 }
{
    match read_cert(alloc, sig, line)? {
        Some(c) => Ok(cert_text(alloc, &c, sig)?.as_slice() == line),
        None => Ok(false),
    }
}

/// Whether the search finds what is wanted.
fn is_found(
    rt: &impl Abort,
    alloc: Global,
    sig: &Signature,
    rules: &[Rule],
    wanted: &Option<Certificate>,
) -> bool
    requires few { length sig.now ≤ 24 }
    requires measurable { AreMeasurable rules.now }
{
    let found = search(alloc, Family::Stated, sig, rules).expect(rt, "memory");
    let is_wanted = is_same(&found, wanted);
    drop(found);
    is_wanted
}

/// How many of the rule sets are searched as trying all members does, and how many of them a member orders.
fn agreements(rt: &impl Abort, alloc: Global) -> (u32, u32) {
    let sig = two_symbols(alloc).expect(rt, "memory");
    let mut agreed = 0;
    let mut ordered = 0;
    for n in 0..343u32 {
        let rules = two_rules(
            rt,
            alloc,
            (n / 49) as u8,
            (n / 7 % 7) as u8,
            (n % 7) as u8,
            (n % 5) as u8,
        );
        let wanted = first_of_all(rt, alloc, &rules);
        if is_found(rt, alloc, &sig, &rules, &wanted) {
            agreed += 1;
        }
        if wanted.is_some() {
            ordered += 1;
        }
        drop(wanted);
        drop(rules);
    }
    drop(sig);
    (agreed, ordered)
}

#[test]
fn a_precedence_comes_before_interpretations(rt: HostRuntime) {
    let alloc = rt.alloc();
    let sig = two_symbols(alloc).expect(&rt, "memory");
    let rules = two_rules(&rt, alloc, 3, 4, 3, 4);
    let wanted = Some(precedence(&rt, alloc, 0, 1));
    assert!(rt; is_found(&rt, alloc, &sig, &rules, &wanted));
    drop(wanted);
    assert!(rt; is_first_text(&rt, alloc, &sig, &rules, b"LPO f g"));
    drop(rules);
    drop(sig);
}

#[test]
fn an_interpretation_is_found_where_no_precedence_orders(rt: HostRuntime) {
    let alloc = rt.alloc();
    let sig = two_symbols(alloc).expect(&rt, "memory");
    let rules = two_rules(&rt, alloc, 2, 1, 4, 3);
    let found = search(alloc, Family::Stated, &sig, &rules).expect(&rt, "memory");
    let wanted = Some(Certificate::Linear(interpretation(&rt, alloc, 1, 2, 0, 2)));
    assert!(rt; is_same(&found, &wanted));
    let copied: Result<_, _> = wanted.clone();
    let copy = copied.expect(&rt, "memory");
    assert!(rt; is_same(&copy, &found));
    drop(copy);
    drop(found);
    let again = found_again(alloc, &sig, &rules).expect(&rt, "memory");
    assert!(rt; is_same(&again, &wanted));
    drop(again);
    drop(wanted);
    assert!(rt; is_first_text(&rt, alloc, &sig, &rules, b"LINEAR 1,2 0,2"));
    drop(rules);
    drop(sig);
}

#[test]
fn weights_come_where_nothing_else_orders(rt: HostRuntime) {
    let alloc = rt.alloc();
    let sig = four_symbols(alloc).expect(&rt, "memory");
    let rules = two_rules(&rt, alloc, 3, 4, 5, 0);
    assert!(rt; is_first_text(&rt, alloc, &sig, &rules, b"KBO 1,1,1,1 f g h m"));
    drop(rules);
    drop(sig);
}

#[test]
fn no_member_orders_a_growing_rule(rt: HostRuntime) {
    let alloc = rt.alloc();
    let sig = two_symbols(alloc).expect(&rt, "memory");
    let rules = growing_rule(&rt, alloc);
    let found = search(alloc, Family::Stated, &sig, &rules).expect(&rt, "memory");
    assert!(rt; found.is_none());
    drop(found);
    drop(rules);
    drop(sig);
}

#[test]
fn the_search_agrees_with_trying_all_members(rt: HostRuntime) {
    let (agreed, ordered) = agreements(&rt, rt.alloc());
    assert!(rt; agreed == 343);
    assert!(rt; 50 < ordered);
    assert!(rt; ordered < 300);
}

#[test]
fn certificates_are_read_from_their_texts_alone(rt: HostRuntime) {
    let alloc = rt.alloc();
    let sig = two_symbols(alloc).expect(&rt, "memory");
    assert!(rt; is_read(alloc, &sig, b"LPO g f").expect(&rt, "memory"));
    assert!(rt; is_read(alloc, &sig, b"LINEAR 15,3 0,1").expect(&rt, "memory"));
    assert!(rt; is_read(alloc, &sig, b"KBO 15,1 g f").expect(&rt, "memory"));
    for line in [
        b"LPO g".as_slice(),
        b"LPO g g",
        b"LPO g f ",
        b"LPO g h",
        b"LINEAR 1,2",
        b"LINEAR 01,2 0,2",
        b"LINEAR 16,2 0,2",
        b"LINEAR 1,4 0,2",
        b"LINEAR 1,2,2 0,2",
        b"KBO 0,1 g f",
        b"KBO 16,1 g f",
        b"KBO 1 g f",
        b"KBO 1,1,1 g f",
        b"KBO 1,1 g",
        b"KBO 1,1 g g",
        b"KBO 1,1  g f",
        b"KBO",
        b"",
    ] {
        assert!(rt; !is_read(alloc, &sig, line).expect(&rt, "memory"));
    }
    drop(sig);
}
