// Completions by rounds.
use crate::bench::Bench;
use kb_io::{HoldGate, MemorySink, OpenGate};
use mkbtt_top::{rounds_write_one_text, status_code};
use std::process::Abort;
use std::sync::Wait;
use std::thread::Threads;
use std::time::Clock;

/// The problems of the examples, between lines of three dashes.
const EXAMPLES: &str =
    "(COMMENT the combinator W, applied by the binary symbol at: neither direction of its equation is ordered, so every process fails)
(VAR x y)
(RULES
at(at(w, x), y) == at(at(x, y), y)
)
---
(VAR x)
(RULES
f(f(x)) == a
)
---
(VAR x y)
(RULES
first(pair(x, y)) == x
)
---
(COMMENT the axioms of groups: a product m, a left unit e, left inverses i)
(VAR x y z)
(RULES
m(e, x) == x
m(i(x), x) == e
m(m(x, y), z) == m(x, m(y, z))
)
---
(COMMENT the axioms of groups by a right unit and right inverses: completes to ten rules, by 2,068 commits)
(VAR x y z)
(RULES
m(x, e) == x
m(x, i(x)) == e
m(m(x, y), z) == m(x, m(y, z))
)
---
(VAR x)
(RULES
f(x) == x
)
---
(COMMENT lists: append, with the empty list nil, cons, and the law that append is associative; completes to four rules)
(VAR x y z)
(RULES
append(nil, x) == x
append(x, nil) == x
append(cons(x, y), z) == cons(x, append(y, z))
append(append(x, y), z) == append(x, append(y, z))
)
---
(COMMENT natural numbers: addition by recursion on the left and on the right argument; completes to four rules)
(VAR x y)
(RULES
plus(zero, x) == x
plus(x, zero) == x
plus(s(x), y) == s(plus(x, y))
plus(x, s(y)) == s(plus(x, y))
)
---
(COMMENT negation normal forms: not, and, or with both truth values and the laws of De Morgan, without commutativity; completes to thirteen rules)
(VAR x y)
(RULES
not(not(x)) == x
not(and(x, y)) == or(not(x), not(y))
not(or(x, y)) == and(not(x), not(y))
not(true) == false
and(true, x) == x
and(x, true) == x
or(false, x) == x
or(x, false) == x
and(false, x) == false
and(x, false) == false
or(true, x) == true
or(x, true) == true
)
---
(VAR x y)
(RULES
plus(s(x), y) == s(plus(x, y))
)
---
(VAR x)
(RULES
f(f(x)) == g(x)
)
---
(COMMENT a presentation of a monoid: the symmetric group of three letters by two reflections, words written as unary terms; completes to three rules, after a fork)
(VAR x)
(RULES
a(a(x)) == x
b(b(x)) == x
a(b(a(x))) == b(a(b(x)))
)
---
(RULES
f(a) == b
f(a) == c
)
---
(VAR x)
(RULES
plus(x, zero) == x
)
";

impl<'a, R: Threads + Wait + Clock + Sync + Abort> Bench<'a, R> {
    /// What a run by rounds writes on the text.
    fn by_rounds(&self, text: &str, select: &str, workers: &str) -> MemorySink {
        let words = &[
            "rounds",
            "--budget",
            "120",
            "--select",
            select,
            "--workers",
            workers,
        ];
        let mut source = self.source(&[text]);
        let mut sink = self.sink(100_000);
        let outcome = self.perform(words, &mut source, &mut sink, &OpenGate);
        assert!(self.rt; status_code(&outcome.status) <= 2);
        sink
    }

    /// Whether 1, 2, 4 and 16 workers write the same bytes on the text, by both selections.
    fn is_the_same_for_all(&self, text: &str) -> bool {
        for select in ["stated", "size"] {
            let alone = self.by_rounds(text, select, "1");
            for workers in ["2", "4", "16"] {
                let together = self.by_rounds(text, select, workers);
                if alone.bytes() != together.bytes() {
                    return false;
                }
            }
        }
        true
    }
}

#[test]
fn a_ticket_stays_in_flight_at_the_verdict(rt: HostRuntime) {
    let bench = Bench {
        rt: &rt,
        alloc: rt.alloc(),
    };
    let answer =
        "MKBTT 2\nSYMBOLS a/0 b/0\nEQUATIONS 1\na = b\nRULES 1\na -> b : 1\nCONSTRAINTS 1\na -> b : 1\nORDER LPO a b\nTRACE 1\n1 input 1 : a = b\nEND\n";
    for workers in ["1", "2", "16"] {
        let words = &["rounds", "--workers", workers];
        assert!(rt; bench.ends(words, &["(RULES a == b)"], "0 4", answer));
    }
}

#[test]
fn every_number_of_workers_writes_the_same_on_each_example(rt: HostRuntime) {
    let bench = Bench {
        rt: &rt,
        alloc: rt.alloc(),
    };
    for text in EXAMPLES.split("---\n") {
        assert!(rt; bench.is_the_same_for_all(text), "{text}");
    }
    rounds_write_one_text();
}

#[test]
fn two_workers_hold_two_tickets_of_a_round_at_once(rt: HostRuntime) {
    let bench = Bench {
        rt: &rt,
        alloc: rt.alloc(),
    };
    let gate = HoldGate::new(2, 3);
    let mut source = bench.source(&["(RULES a == b)"]);
    let mut sink = bench.sink(1000);
    let words = &["rounds", "--workers", "2"];
    let outcome = bench.perform(words, &mut source, &mut sink, &gate);
    assert!(rt; status_code(&outcome.status) == 0);
    assert!(rt; gate.met());
}
