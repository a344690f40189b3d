// Answers that are read from their texts, and what is written of them.
use kb_checker::Answer;
use kb_export::{dot_text, trs_text};
use kb_report::read_answer;
use std::alloc::Global;
use std::process::Abort;

const SQUARE: &[u8] =
    b"MKBTT 2\nSYMBOLS f/1 a/0\nEQUATIONS 1\nf(f(x1)) = a\nRULES 2\nf(f(x1)) -> a : 1\nf(a) -> a : 2\nCONSTRAINTS 0\nORDER LPO f a\nTRACE 2\n1 input 1 : f(f(x1)) = a\n2 overlap 1 dir 0 with 1 dir 0 at 1 : f(a) = a\nEND\n";

/// A name with a backslash and an ampersand, and one that looks like a variable.
const NAMED: &[u8] =
    b"MKBTT 2\nSYMBOLS \\n&lt;/0 x1/1\nEQUATIONS 1\nx1(xx1) = \\n&lt;\nRULES 1\nx1(xx1) -> \\n&lt; : 1\nCONSTRAINTS 0\nORDER LPO x1 \\n&lt;\nTRACE 1\n1 input 1 : \\n&lt; = x1(xx1)\nEND\n";

/// A step that is made by rewriting, and an equation that has no variables.
const TWO: &[u8] =
    b"MKBTT 2\nSYMBOLS f/1 a/0 b/0 c/0\nEQUATIONS 2\nf(a) = b\nf(a) = c\nRULES 2\nf(a) -> c : 2\nb -> c : 3\nCONSTRAINTS 0\nORDER LPO f a b c\nTRACE 3\n1 input 1 : f(a) = b\n2 input 2 : f(a) = c\n3 rewrite 2 side 0 at e by 1 dir 0 : b = c\nEND\n";

const NONE: &[u8] =
    b"MKBTT 2\nSYMBOLS a/0\nEQUATIONS 1\na = a\nRULES 0\nCONSTRAINTS 0\nORDER LPO a\nTRACE 0\nEND\n";

fn answer(rt: &impl Abort, alloc: Global, text: &[u8]) -> Answer {
    read_answer(alloc, text).expect(rt, "an answer")
}

fn writes_rules(rt: &impl Abort, alloc: Global, text: &[u8], want: &[u8]) -> bool {
    let rules = trs_text(alloc, &answer(rt, alloc, text)).expect(rt, "memory");
    rules.as_slice() == want
}

fn draws(rt: &impl Abort, alloc: Global, text: &[u8], want: &[u8]) -> bool {
    let graph = dot_text(alloc, &answer(rt, alloc, text)).expect(rt, "memory");
    graph.as_slice() == want
}

#[test]
fn rules_are_a_problem(rt: HostRuntime) {
    let alloc = rt.alloc();
    assert!(rt;
        writes_rules(
            &rt,
            alloc,
            SQUARE,
            b"(VAR x1)\n(RULES\nf(f(x1)) -> a\nf(a) -> a\n)\n"
        )
    );
    assert!(rt; writes_rules(&rt, alloc, TWO, b"(VAR)\n(RULES\nf(a) -> c\nb -> c\n)\n"));
    assert!(rt;
        writes_rules(
            &rt,
            alloc,
            NAMED,
            b"(VAR xx1)\n(RULES\nx1(xx1) -> \\n&lt;\n)\n"
        )
    );
    assert!(rt; writes_rules(&rt, alloc, NONE, b"(VAR)\n(RULES\n)\n"));
}

#[test]
fn a_trace_is_a_graph(rt: HostRuntime) {
    let alloc = rt.alloc();
    assert!(rt;
        draws(
            &rt,
            alloc,
            SQUARE,
            b"digraph trace {\nnode [shape=box];\ninput1 [label=\"input1: f(f(x1)) = a\"];\nstep1 [label=\"step1: f(f(x1)) = a\"];\ninput1 -> step1;\nstep2 [label=\"step2: f(a) = a\"];\nstep1 -> step2;\nstep1 -> step2;\nstep1 [style=bold, label=\"step1: f(f(x1)) -> a\"];\nstep2 [style=bold, label=\"step2: f(a) -> a\"];\n}\n"
        )
    );
    assert!(rt;
        draws(
            &rt,
            alloc,
            TWO,
            b"digraph trace {\nnode [shape=box];\ninput1 [label=\"input1: f(a) = b\"];\ninput2 [label=\"input2: f(a) = c\"];\nstep1 [label=\"step1: f(a) = b\"];\ninput1 -> step1;\nstep2 [label=\"step2: f(a) = c\"];\ninput2 -> step2;\nstep3 [label=\"step3: b = c\"];\nstep2 -> step3;\nstep1 -> step3;\nstep2 [style=bold, label=\"step2: f(a) -> c\"];\nstep3 [style=bold, label=\"step3: b -> c\"];\n}\n"
        )
    );
    assert!(rt;
        draws(
            &rt,
            alloc,
            NAMED,
            b"digraph trace {\nnode [shape=box];\ninput1 [label=\"input1: x1(xx1) = \\\\n&amp;lt;\"];\nstep1 [label=\"step1: \\\\n&amp;lt; = x1(xx1)\"];\ninput1 -> step1;\nstep1 [style=bold, label=\"step1: x1(xx1) -> \\\\n&amp;lt;\"];\n}\n"
        )
    );
    assert!(rt;
        draws(
            &rt,
            alloc,
            NONE,
            b"digraph trace {\nnode [shape=box];\ninput1 [label=\"input1: a = a\"];\n}\n"
        )
    );
}
