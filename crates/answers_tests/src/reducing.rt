// Answers as texts, and the texts of their reductions.
use kb_checker::Reject;
use kb_reduce::{Reduction, reduce};
use kb_report::{Report, answer_text, read_answer};
use std::alloc::Global;
use std::process::Abort;

/// a -> b and b -> c, and each pair has the left side of its rule first.
const CHAIN: &[u8] =
    b"MKBTT 2\nSYMBOLS a/0 b/0 c/0\nEQUATIONS 2\na = b\nb = c\nRULES 2\na -> b : 1\nb -> c : 2\nCONSTRAINTS 0\nORDER LPO a b c\nTRACE 2\n1 input 1 : a = b\n2 input 2 : b = c\nEND\n";

const CHAIN_REDUCED: &[u8] =
    b"MKBTT 2\nSYMBOLS a/0 b/0 c/0\nEQUATIONS 2\na = b\nb = c\nRULES 2\na -> c : 3\nb -> c : 2\nCONSTRAINTS 0\nORDER LPO a b c\nTRACE 3\n1 input 1 : a = b\n2 input 2 : b = c\n3 rewrite 1 side 1 at e by 2 dir 0 : a = c\nEND\n";

/// The same rules, and each pair has the right side of its rule first.
const BACK: &[u8] =
    b"MKBTT 2\nSYMBOLS c/0 b/0 a/0\nEQUATIONS 2\na = b\nb = c\nRULES 2\na -> b : 1\nb -> c : 2\nCONSTRAINTS 1\na -> b : 1\nORDER LPO a b c\nTRACE 2\n1 input 1 : b = a\n2 input 2 : c = b\nEND\n";

const BACK_REDUCED: &[u8] =
    b"MKBTT 2\nSYMBOLS c/0 b/0 a/0\nEQUATIONS 2\na = b\nb = c\nRULES 2\na -> c : 3\nb -> c : 2\nCONSTRAINTS 1\na -> b : 1\nORDER LPO a b c\nTRACE 3\n1 input 1 : b = a\n2 input 2 : c = b\n3 rewrite 1 side 0 at e by 2 dir 1 : c = a\nEND\n";

/// f(x1) -> a rewrites the left side of f(b) -> a.
const INSTANCE: &[u8] =
    b"MKBTT 2\nSYMBOLS f/1 a/0 b/0\nEQUATIONS 2\nf(x1) = a\nf(b) = a\nRULES 2\nf(x1) -> a : 1\nf(b) -> a : 2\nCONSTRAINTS 0\nORDER LPO f a b\nTRACE 2\n1 input 1 : f(x1) = a\n2 input 2 : f(b) = a\nEND\n";

const INSTANCE_REDUCED: &[u8] =
    b"MKBTT 2\nSYMBOLS f/1 a/0 b/0\nEQUATIONS 2\nf(x1) = a\nf(b) = a\nRULES 1\nf(x1) -> a : 1\nCONSTRAINTS 0\nORDER LPO f a b\nTRACE 2\n1 input 1 : f(x1) = a\n2 input 2 : f(b) = a\nEND\n";

/// Two steps inside the right side of g(x1) -> f(f(x1)), by f(x1) -> x1.
const INSIDE: &[u8] =
    b"MKBTT 2\nSYMBOLS g/1 f/1\nEQUATIONS 2\ng(x1) = f(f(x1))\nf(x1) = x1\nRULES 2\ng(x1) -> f(f(x1)) : 1\nf(x1) -> x1 : 2\nCONSTRAINTS 0\nORDER LPO g f\nTRACE 2\n1 input 1 : g(x1) = f(f(x1))\n2 input 2 : x1 = f(x1)\nEND\n";

const INSIDE_REDUCED: &[u8] =
    b"MKBTT 2\nSYMBOLS g/1 f/1\nEQUATIONS 2\ng(x1) = f(f(x1))\nf(x1) = x1\nRULES 2\ng(x1) -> x1 : 4\nf(x1) -> x1 : 2\nCONSTRAINTS 0\nORDER LPO g f\nTRACE 4\n1 input 1 : g(x1) = f(f(x1))\n2 input 2 : x1 = f(x1)\n3 rewrite 1 side 1 at e by 2 dir 1 : g(x1) = f(x1)\n4 rewrite 3 side 1 at e by 2 dir 1 : x1 = g(x1)\nEND\n";

/// The second rule cites a step that hasn't its pair.
const UNTRACED: &[u8] =
    b"MKBTT 2\nSYMBOLS a/0 b/0 c/0\nEQUATIONS 2\na = b\nb = c\nRULES 2\na -> b : 1\nb -> c : 1\nCONSTRAINTS 0\nORDER LPO a b c\nTRACE 2\n1 input 1 : a = b\n2 input 2 : b = c\nEND\n";

/// Whether the answer of the text is reduced to that of the other text.
fn is_reduced(alloc: Global, rt: &impl Abort, text: &[u8], other: &[u8]) -> bool {
    let answer = read_answer(alloc, text).expect(rt, "read");
    match reduce(alloc, &answer).expect(rt, "memory") {
        Reduction::Reduced(made) => {
            let written = answer_text(alloc, &Report::System(made)).expect(rt, "memory");
            written.as_slice() == other
        }
        _ => false,
    }
}

#[test]
fn a_right_side_is_normalised_and_its_step_comes_behind(rt: HostRuntime) {
    let alloc = rt.alloc();
    assert!(rt; is_reduced(alloc, &rt, CHAIN, CHAIN_REDUCED));
    assert!(rt; is_reduced(alloc, &rt, BACK, BACK_REDUCED));
    assert!(rt; is_reduced(alloc, &rt, INSIDE, INSIDE_REDUCED));
}

#[test]
fn an_instance_of_a_left_side_is_left_out(rt: HostRuntime) {
    let alloc = rt.alloc();
    assert!(rt; is_reduced(alloc, &rt, INSTANCE, INSTANCE_REDUCED));
}

#[test]
fn a_reduced_answer_is_reduced_to_itself(rt: HostRuntime) {
    let alloc = rt.alloc();
    assert!(rt; is_reduced(alloc, &rt, CHAIN_REDUCED, CHAIN_REDUCED));
    assert!(rt; is_reduced(alloc, &rt, INSTANCE_REDUCED, INSTANCE_REDUCED));
}

#[test]
fn a_bad_answer_is_rejected(rt: HostRuntime) {
    let alloc = rt.alloc();
    let answer = read_answer(alloc, UNTRACED).expect(&rt, "read");
    let reduction = reduce(alloc, &answer).expect(&rt, "memory");
    assert!(rt; matches!(reduction, Reduction::Rejected(Reject::Untraced, 2)));
}
