// Worked texts, and their alterations.
ghost use Rattle.kb_checker.specs.Answers.{IsGoodAnswer};

use kb_checker::{Answer, Checked, check};
use kb_goals::{
    Simplified, decide_goals, decide_text, read_goals, read_terms, rules_of,
    simplified_terms_are_right, simplify, simplify_terms, simplify_text,
};
use kb_term::{Rule, Term};
use kb_text::TextFault;
use std::alloc::Global;
use std::process::Abort;

/// The answer for f(f(x)) = a, 15 lines.
const SQUARE: &[u8] =
    b"MKBTT 2\nSYMBOLS f/1 a/0\nEQUATIONS 1\nf(f(x1)) = a\nRULES 2\nf(f(x1)) -> a : 1\nf(a) -> a : 2\nCONSTRAINTS 2\nf(f(x1)) -> a : 1\nf(a) -> a : 2\nORDER LPO f a\nTRACE 2\n1 input 1 : f(f(x1)) = a\n2 overlap 1 dir 0 with 1 dir 0 at 1 : f(a) = a\nEND\n";

/// The same in version 1, 12 lines.
const OLD_SQUARE: &[u8] =
    b"MKBTT 1\nSYMBOLS f/1 a/0\nEQUATIONS 1\nf(f(x1)) = a\nRULES 2\nf(f(x1)) -> a : 1\nf(a) -> a : 2\nORDER LPO f a\nTRACE 2\n1 input 1 : f(f(x1)) = a\n2 overlap 1 dir 0 with 1 dir 0 at 1 : f(a) = a\nEND\n";

/// The answer for d(x) = p(x, x), 11 lines.
const DOUBLE: &[u8] =
    b"MKBTT 2\nSYMBOLS d/1 p/2\nEQUATIONS 1\nd(x1) = p(x1,x1)\nRULES 1\nd(x1) -> p(x1,x1) : 1\nCONSTRAINTS 0\nORDER LPO d p\nTRACE 1\n1 input 1 : d(x1) = p(x1,x1)\nEND\n";

/// Two goals.
const GOALS: &[u8] = b"GOALS 2\nf(f(f(x1))) = a\nf(x1) = a\nEND\n";

/// One text behind the other.
fn joined(alloc: Global, rt: &impl Abort, first: &[u8], second: &[u8]) -> Vec<u8> {
    let mut text = Vec::from_slice(alloc, first).expect(rt, "memory");
    text.extend_from_slice(second).expect(rt, "memory");
    text
}

/// The number of the first bad line of the text behind the answer; 0 where the text is read.
fn bad_line(alloc: Global, rt: &impl Abort, answer: &[u8], goals: &[u8]) -> u64 {
    match read_goals(alloc, &joined(alloc, rt, answer, goals)) {
        Ok(_) => 0,
        Err(TextFault::BadText(n)) => n,
        Err(TextFault::Memory) => panic!(rt; "memory"),
    }
}

/// The answer is one that the checker accepts.
fn accept(alloc: Global, rt: &impl Abort, answer: &Answer)
    ensures { IsGoodAnswer answer.now }
{
    if check(alloc, answer).expect(rt, "memory") != Checked::Accepted {
        panic!(rt; "a bad answer");
    }
}

/// What becomes of the terms behind the answer.
fn simplified(alloc: Global, rt: &impl Abort, answer: &[u8], terms: &[u8]) -> Vec<u8> {
    let (answer, terms) = read_terms(alloc, &joined(alloc, rt, answer, terms)).expect(rt, "read");
    accept(alloc, rt, &answer);
    let simplified = simplify_terms(alloc, &answer, &terms).expect(rt, "memory");
    simplify_text(alloc, answer.problem().signature(), &simplified).expect(rt, "memory")
}

/// The normal form of the term.
fn form(alloc: Global, rt: &impl Abort, rules: &[Rule], term: &Term) -> Term {
    match simplify(alloc, rules, term).expect(rt, "memory") {
        Simplified::Normal { term, .. } => term,
        Simplified::Unknown(_) => panic!(rt; "no form"),
    }
}

/// The number of the first bad line of the text with terms behind the answer; 0 where the text is read.
fn bad_term_line(alloc: Global, rt: &impl Abort, answer: &[u8], terms: &[u8]) -> u64 {
    match read_terms(alloc, &joined(alloc, rt, answer, terms)) {
        Ok(_) => 0,
        Err(TextFault::BadText(n)) => n,
        Err(TextFault::Memory) => panic!(rt; "memory"),
    }
}

/// What is said of the goals behind the answer.
fn decided(alloc: Global, rt: &impl Abort, answer: &[u8], goals: &[u8]) -> Vec<u8> {
    let (answer, goals) = read_goals(alloc, &joined(alloc, rt, answer, goals)).expect(rt, "read");
    accept(alloc, rt, &answer);
    let decisions = decide_goals(alloc, &answer, &goals).expect(rt, "memory");
    decide_text(alloc, answer.problem().signature(), &decisions).expect(rt, "memory")
}

#[test]
fn goals_of_a_worked_answer_are_decided(rt: HostRuntime) {
    let alloc = rt.alloc();
    let text: &[u8] = b"MKBTT DECIDE 1\n1 YES 1 0\nleft e 1\n2 NO\nf(x1)\na\nEND\n";
    assert!(rt; decided(alloc, &rt, SQUARE, GOALS).as_slice() == text);
    assert!(rt; decided(alloc, &rt, OLD_SQUARE, GOALS).as_slice() == text);
}

#[test]
fn ten_doublings_pass_the_size(rt: HostRuntime) {
    let goals: &[u8] = b"GOALS 1\nd(d(d(d(d(d(d(d(d(d(x1)))))))))) = x1\nEND\n";
    let text: &[u8] = b"MKBTT DECIDE 1\n1 UNKNOWN size\nEND\n";
    assert!(rt; decided(rt.alloc(), &rt, DOUBLE, goals).as_slice() == text);
}

#[test]
fn steps_below_the_root_have_their_positions(rt: HostRuntime) {
    let goals: &[u8] = b"GOALS 2\np(x1,d(x2)) = p(x1,p(x2,x2))\nx1 = p(d(x2),x1)\nEND\n";
    let text: &[u8] = b"MKBTT DECIDE 1\n1 YES 1 0\nleft 2 1\n2 NO\nx1\np(p(x2,x2),x1)\nEND\n";
    assert!(rt; decided(rt.alloc(), &rt, DOUBLE, goals).as_slice() == text);
}

#[test]
fn the_first_bad_line_is_told(rt: HostRuntime) {
    let alloc = rt.alloc();
    assert!(rt; bad_line(alloc, &rt, SQUARE, GOALS) == 0);
    assert!(rt; bad_line(alloc, &rt, SQUARE, b"GOALS 0\nEND\n") == 0);
    assert!(rt; bad_line(alloc, &rt, SQUARE, b"") == 16);
    assert!(rt; bad_line(alloc, &rt, SQUARE, b"GOALS 257\nEND\n") == 16);
    assert!(rt; bad_line(alloc, &rt, SQUARE, b"GOALS 1\nf(x1,x1) = a\nEND\n") == 17);
    assert!(rt; bad_line(alloc, &rt, SQUARE, b"GOALS 1\nf = a\nEND\n") == 17);
    assert!(rt; bad_line(alloc, &rt, SQUARE, b"GOALS 2\na = a\ng(x1) = a\nEND\n") == 18);
    assert!(rt; bad_line(alloc, &rt, SQUARE, b"GOALS 1\nf(x2) = a\nEND\n") == 17);
    assert!(rt; bad_line(alloc, &rt, SQUARE, b"GOALS 2\na = a\nEND\n") == 18);
    assert!(rt; bad_line(alloc, &rt, SQUARE, b"GOALS 1\na = a\na = a\nEND\n") == 18);
    assert!(rt; bad_line(alloc, &rt, SQUARE, b"GOALS 1\na = a\n") == 18);
    assert!(rt; bad_line(alloc, &rt, SQUARE, b"GOALS 1\na = a\nEND") == 18);
    assert!(rt; bad_line(alloc, &rt, SQUARE, b"GOALS 1\na = a\nEND\n\n") == 19);
    assert!(rt; bad_line(alloc, &rt, OLD_SQUARE, b"GOALS 1\na = a\nEND\nEND\n") == 16);
}

#[test]
fn a_bad_line_of_the_answer_is_told(rt: HostRuntime) {
    let alloc = rt.alloc();
    let (_, behind_head) = SQUARE.split_at(8);
    assert!(rt; bad_line(alloc, &rt, behind_head, GOALS) == 1);
    let (without_end, _) = SQUARE.split_at(SQUARE.len() - 4);
    assert!(rt; bad_line(alloc, &rt, without_end, GOALS) == 15);
    assert!(rt; bad_line(alloc, &rt, b"END\n", GOALS) == 1);
    assert!(rt; bad_line(alloc, &rt, b"", b"") == 1);
}

#[test]
fn terms_are_simplified(rt: HostRuntime) {
    let alloc = rt.alloc();
    simplified_terms_are_right();
    let terms: &[u8] = b"TERMS 4\nf(f(f(x1)))\nf(f(f(f(f(x1)))))\nf(x1)\nf(a)\nEND\n";
    let text: &[u8] = b"MKBTT SIMPLIFY 1\n1 1 a\n2 1 a\n3 0 f(x1)\n4 1 a\nEND\n";
    assert!(rt; simplified(alloc, &rt, SQUARE, terms).as_slice() == text);
    let terms: &[u8] = b"TERMS 2\nd(d(x1))\nd(d(d(d(d(d(d(d(d(d(x1))))))))))\nEND\n";
    let text: &[u8] = b"MKBTT SIMPLIFY 1\n1 3 p(p(x1,x1),p(x1,x1))\n2 UNKNOWN size\nEND\n";
    assert!(rt; simplified(alloc, &rt, DOUBLE, terms).as_slice() == text);
}

#[test]
fn equal_terms_have_one_form(rt: HostRuntime) {
    let alloc = rt.alloc();
    let text = joined(alloc, &rt, SQUARE, b"TERMS 2\nf(f(f(x1)))\nf(f(a))\nEND\n");
    let (answer, terms) = read_terms(alloc, &text).expect(&rt, "read");
    let rules = rules_of(alloc, &answer).expect(&rt, "memory");
    assert!(rt; terms.len() == 2);
    let first = form(alloc, &rt, &rules, &terms[0]);
    assert!(rt; first == form(alloc, &rt, &rules, &terms[1]));
    assert!(rt; first != terms[0]);
}

#[test]
fn the_first_bad_line_of_terms_is_told(rt: HostRuntime) {
    let alloc = rt.alloc();
    assert!(rt; bad_term_line(alloc, &rt, DOUBLE, b"TERMS 2\np(x1,x2)\nd(x1)\nEND\n") == 0);
    assert!(rt; bad_term_line(alloc, &rt, DOUBLE, b"GOALS 0\nEND\n") == 12);
    assert!(rt; bad_term_line(alloc, &rt, DOUBLE, b"TERMS 257\nEND\n") == 12);
    assert!(rt; bad_term_line(alloc, &rt, DOUBLE, b"TERMS 1\np(x2,x1)\nEND\n") == 13);
    assert!(rt; bad_term_line(alloc, &rt, DOUBLE, b"TERMS 1\np(x1)\nEND\n") == 13);
    assert!(rt; bad_term_line(alloc, &rt, DOUBLE, b"TERMS 2\nx1\n d(x1)\nEND\n") == 14);
    assert!(rt; bad_term_line(alloc, &rt, DOUBLE, b"TERMS 1\nx1\nEND") == 14);
    assert!(rt; bad_term_line(alloc, &rt, DOUBLE, b"TERMS 1\nx1\nEND\nx") == 15);
}
