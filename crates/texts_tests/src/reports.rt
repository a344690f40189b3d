// Worked texts, and their alterations.
use kb_checker::{Checked, Reject, check};
use kb_label::{Process, Reason, Verdict};
use kb_report::{Report, Summary, answer_text, read_answer, summary_text, texts_are_one};
use kb_text::TextFault;
use std::alloc::Global;
use std::process::Abort;

const EMPTY: &[u8] =
    b"MKBTT 2\nSYMBOLS\nEQUATIONS 0\nRULES 0\nCONSTRAINTS 0\nORDER LPO\nTRACE 0\nEND\n";

/// The same in version 1.
const OLD_EMPTY: &[u8] = b"MKBTT 1\nSYMBOLS\nEQUATIONS 0\nRULES 0\nORDER LPO\nTRACE 0\nEND\n";

const SQUARE: &[u8] =
    b"MKBTT 2\nSYMBOLS f/1 a/0\nEQUATIONS 1\nf(f(x1)) = a\nRULES 2\nf(f(x1)) -> a : 1\nf(a) -> a : 2\nCONSTRAINTS 2\nf(f(x1)) -> a : 1\nf(a) -> a : 2\nORDER LPO f a\nTRACE 2\n1 input 1 : f(f(x1)) = a\n2 overlap 1 dir 0 with 1 dir 0 at 1 : f(a) = a\nEND\n";

/// The same without constraints, in version 1.
const OLD_SQUARE: &[u8] =
    b"MKBTT 1\nSYMBOLS f/1 a/0\nEQUATIONS 1\nf(f(x1)) = a\nRULES 2\nf(f(x1)) -> a : 1\nf(a) -> a : 2\nORDER LPO f a\nTRACE 2\n1 input 1 : f(f(x1)) = a\n2 overlap 1 dir 0 with 1 dir 0 at 1 : f(a) = a\nEND\n";

/// The same without constraints, in version 2.
const LONE_SQUARE: &[u8] =
    b"MKBTT 2\nSYMBOLS f/1 a/0\nEQUATIONS 1\nf(f(x1)) = a\nRULES 2\nf(f(x1)) -> a : 1\nf(a) -> a : 2\nCONSTRAINTS 0\nORDER LPO f a\nTRACE 2\n1 input 1 : f(f(x1)) = a\n2 overlap 1 dir 0 with 1 dir 0 at 1 : f(a) = a\nEND\n";

const TWO: &[u8] =
    b"MKBTT 2\nSYMBOLS f/1 a/0 b/0 c/0\nEQUATIONS 2\nf(a) = b\nf(a) = c\nRULES 2\nf(a) -> c : 2\nb -> c : 3\nCONSTRAINTS 2\nf(a) -> b : 1\nb -> c : 3\nORDER LPO f a b c\nTRACE 3\n1 input 1 : f(a) = b\n2 input 2 : f(a) = c\n3 rewrite 2 side 0 at e by 1 dir 0 : b = c\nEND\n";

// No precedence orders f(g(x)) -> g(f(x)) and g(g(x)) -> f(x), and no interpretation that is tried orders all three rules:
// the third one asks that f multiplies by 1, and the first that it doesn't.
const WEIGHED: &[u8] =
    b"MKBTT 2\nSYMBOLS f/1 g/1 k/1\nEQUATIONS 3\nf(g(x1)) = g(f(x1))\ng(g(x1)) = f(x1)\nk(x1) = f(f(x1))\nRULES 3\nf(g(x1)) -> g(f(x1)) : 1\ng(g(x1)) -> f(x1) : 2\nk(x1) -> f(f(x1)) : 3\nCONSTRAINTS 0\nORDER KBO 1,1,3 f g k\nTRACE 3\n1 input 1 : f(g(x1)) = g(f(x1))\n2 input 2 : f(x1) = g(g(x1))\n3 input 3 : f(f(x1)) = k(x1)\nEND\n";

// The same, with weights by which the third rule doesn't descend.
const TOO_LIGHT: &[u8] =
    b"MKBTT 2\nSYMBOLS f/1 g/1 k/1\nEQUATIONS 3\nf(g(x1)) = g(f(x1))\ng(g(x1)) = f(x1)\nk(x1) = f(f(x1))\nRULES 3\nf(g(x1)) -> g(f(x1)) : 1\ng(g(x1)) -> f(x1) : 2\nk(x1) -> f(f(x1)) : 3\nCONSTRAINTS 0\nORDER KBO 1,1,1 f g k\nTRACE 3\n1 input 1 : f(g(x1)) = g(f(x1))\n2 input 2 : f(x1) = g(g(x1))\n3 input 3 : f(f(x1)) = k(x1)\nEND\n";

/// The text with other bytes in place of its line with the number.
fn altered(alloc: Global, rt: &impl Abort, old: &[u8], number: usize, line: &[u8]) -> Vec<u8> {
    let mut text = Vec::new(alloc);
    let mut at = 1usize;
    for i in 0..old.len() {
        let b = old[i];
        if at != number {
            text.push(b).expect(rt, "memory");
        }
        if b == b'\n' {
            if at == number {
                text.extend_from_slice(line).expect(rt, "memory");
            }
            at = at.wrapping_add(1);
        }
    }
    text
}

/// The number of the first bad line; 0 where the text is read.
fn bad_line(alloc: Global, rt: &impl Abort, text: &[u8]) -> u64 {
    match read_answer(alloc, text) {
        Ok(_) => 0,
        Err(TextFault::BadText(n)) => n,
        Err(TextFault::Memory) => panic!(rt; "memory"),
    }
}

/// The first bad line where that line stands in place of the one with the number, in version 1.
fn bad_at(alloc: Global, rt: &impl Abort, number: usize, line: &[u8]) -> u64 {
    let text = altered(alloc, rt, OLD_SQUARE, number, line);
    bad_line(alloc, rt, &text)
}

/// The same in version 2.
fn bad_in_second(alloc: Global, rt: &impl Abort, number: usize, line: &[u8]) -> u64 {
    let text = altered(alloc, rt, SQUARE, number, line);
    bad_line(alloc, rt, &text)
}

/// Whether what is read of the text is written as the other one.
fn is_written(alloc: Global, rt: &impl Abort, text: &[u8], other: &[u8]) -> bool {
    let answer = read_answer(alloc, text).expect(rt, "read");
    let written = answer_text(alloc, &Report::System(answer)).expect(rt, "memory");
    written.as_slice() == other
}

#[test]
fn worked_texts_come_back(rt: HostRuntime) {
    let alloc = rt.alloc();
    assert!(rt; EMPTY.len() == 72);
    assert!(rt; is_written(alloc, &rt, EMPTY, EMPTY));
    assert!(rt; is_written(alloc, &rt, SQUARE, SQUARE));
    assert!(rt; is_written(alloc, &rt, TWO, TWO));
    assert!(rt; is_written(alloc, &rt, WEIGHED, WEIGHED));
}

#[test]
fn texts_of_version_1_are_read_and_written_in_version_2(rt: HostRuntime) {
    let alloc = rt.alloc();
    assert!(rt; OLD_EMPTY.len() == 58);
    assert!(rt; is_written(alloc, &rt, OLD_EMPTY, EMPTY));
    assert!(rt; is_written(alloc, &rt, OLD_SQUARE, LONE_SQUARE));
    assert!(rt; is_written(alloc, &rt, LONE_SQUARE, LONE_SQUARE));
    texts_are_one();
}

#[test]
fn constraints_stand_behind_the_rules_in_version_2_alone(rt: HostRuntime) {
    let alloc = rt.alloc();
    assert!(rt; bad_in_second(alloc, &rt, 1, b"MKBTT 1\n") == 8);
    assert!(rt; bad_at(alloc, &rt, 1, b"MKBTT 2\n") == 8);
    assert!(rt; bad_in_second(alloc, &rt, 1, b"MKBTT 3\n") == 1);
    assert!(rt; bad_in_second(alloc, &rt, 8, b"CONSTRAINTS 02\n") == 8);
    assert!(rt; bad_in_second(alloc, &rt, 8, b"CONSTRAINTS 4097\n") == 8);
    assert!(rt; bad_in_second(alloc, &rt, 8, b"CONSTRAINTS 3\n") == 11);
    assert!(rt; bad_in_second(alloc, &rt, 8, b"CONSTRAINTS 1\n") == 10);
    assert!(rt; bad_in_second(alloc, &rt, 9, b"f(f(x2)) -> a : 1\n") == 9);
    assert!(rt; bad_in_second(alloc, &rt, 10, b"f(a) -> a : 0\n") == 10);
    assert!(rt; bad_in_second(alloc, &rt, 10, b"f(a) -> a : 4096\n") == 0);
    assert!(rt; bad_in_second(alloc, &rt, 10, b"f(a) -> a : 4097\n") == 10);
    assert!(rt; bad_in_second(alloc, &rt, 15, b"END\n\n") == 16);
}

#[test]
fn constraints_are_checked_before_the_rules_are_oriented(rt: HostRuntime) {
    let alloc = rt.alloc();
    let second = altered(alloc, &rt, SQUARE, 9, b"f(f(x1)) -> a : 2\n");
    assert!(rt;
        matches!(
            verdict(alloc, &rt, &second),
            Checked::Rejected(Reject::UntracedConstraint, 1)
        )
    );
    let other = altered(alloc, &rt, SQUARE, 9, b"f(a) -> a : 1\n");
    assert!(rt;
        matches!(
            verdict(alloc, &rt, &other),
            Checked::Rejected(Reject::UntracedConstraint, 1)
        )
    );
    let backwards = altered(alloc, &rt, SQUARE, 11, b"ORDER LPO a f\n");
    assert!(rt;
        matches!(
            verdict(alloc, &rt, &backwards),
            Checked::Rejected(Reject::ConstraintNotOriented, 1)
        )
    );
    let turned = altered(alloc, &rt, SQUARE, 10, b"a -> f(a) : 2\n");
    assert!(rt;
        matches!(
            verdict(alloc, &rt, &turned),
            Checked::Rejected(Reject::ConstraintNotOriented, 2)
        )
    );
}

/// What the checker says of the text.
fn verdict(alloc: Global, rt: &impl Abort, text: &[u8]) -> Checked {
    let answer = read_answer(alloc, text).expect(rt, "read");
    check(alloc, &answer).expect(rt, "memory")
}

#[test]
fn an_answer_ordered_by_weights_alone_is_accepted(rt: HostRuntime) {
    let alloc = rt.alloc();
    assert!(rt; matches!(verdict(alloc, &rt, WEIGHED), Checked::Accepted));
    assert!(rt;
        matches!(
            verdict(alloc, &rt, TOO_LIGHT),
            Checked::Rejected(Reject::NotOriented, 3)
        )
    );
}

#[test]
fn an_order_line_has_a_weight_and_a_name_for_each_symbol(rt: HostRuntime) {
    let alloc = rt.alloc();
    assert!(rt; bad_at(alloc, &rt, 8, b"ORDER KBO 1,15 f a\n") == 0);
    assert!(rt; bad_at(alloc, &rt, 8, b"ORDER KBO 0,1 f a\n") == 8);
    assert!(rt; bad_at(alloc, &rt, 8, b"ORDER KBO 1,16 f a\n") == 8);
    assert!(rt; bad_at(alloc, &rt, 8, b"ORDER KBO 1,1 f\n") == 8);
    assert!(rt; bad_at(alloc, &rt, 8, b"ORDER KBO 1,1,1 f a\n") == 8);
}

#[test]
fn the_first_bad_line_is_named(rt: HostRuntime) {
    let alloc = rt.alloc();
    assert!(rt; bad_at(alloc, &rt, 1, b"MKBTT 9\n") == 1);
    assert!(rt; bad_at(alloc, &rt, 5, b"RULES 02\n") == 5);
    assert!(rt; bad_at(alloc, &rt, 6, b"f(f(x2)) -> a : 1\n") == 6);
    assert!(rt; bad_at(alloc, &rt, 7, b"f(a) -> a : 0\n") == 7);
    assert!(rt; bad_at(alloc, &rt, 8, b"ORDER LPO f f\n") == 8);
    assert!(rt; bad_at(alloc, &rt, 8, b"ORDER LINEAR 1,4 0\n") == 8);
    assert!(rt; bad_at(alloc, &rt, 8, b"ORDER LINEAR 1,1 0\n") == 0);
    assert!(rt; bad_at(alloc, &rt, 10, b"1 input 1 : a = f(f(x1))\n") == 10);
    assert!(rt; bad_at(alloc, &rt, 12, b"") == 12);
    assert!(rt; bad_at(alloc, &rt, 12, b"END\n\n") == 13);
    assert!(rt; bad_line(alloc, &rt, b"") == 1);
}

#[test]
fn reports_without_a_system_have_three_lines(rt: HostRuntime) {
    let alloc = rt.alloc();
    let commits = Report::SpentCommits {
        commits: 1,
        living: 2,
    };
    let text = answer_text(alloc, &commits).expect(&rt, "memory");
    assert!(rt; text.as_slice() == b"MKBTT 2\nSPENT COMMITS 1 2\nEND\n".as_slice());
    let over = Report::SpentOver {
        reason: Reason::Depth,
        living: 1,
    };
    let text = answer_text(alloc, &over).expect(&rt, "memory");
    assert!(rt; text.as_slice() == b"MKBTT 2\nSPENT OVER depth 1\nEND\n".as_slice());
    let text = answer_text(alloc, &Report::AllFailed { living: 1 }).expect(&rt, "memory");
    assert!(rt; text.as_slice() == b"MKBTT 2\nFAILED 1\nEND\n".as_slice());
}

#[test]
fn a_summary_has_nine_lines(rt: HostRuntime) {
    let alloc = rt.alloc();
    let summary = Summary {
        verdict: Some(Verdict::Complete(Process::root().child(true))),
        commits: 4,
        drops: 0,
        nodes: 2,
        dead: 0,
        forks: 1,
        living: 2,
        over: 0,
        rules: 1,
    };
    let text = summary_text(alloc, &summary).expect(&rt, "memory");
    assert!(rt;
        text.as_slice()
            == b"verdict complete 1\ncommits 4\ndrops 0\nnodes 2\ndead 0\nforks 1\nliving 2\nover 0\nrules 1\n".as_slice()
    );
}
