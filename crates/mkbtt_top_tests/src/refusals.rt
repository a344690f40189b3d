// What is refused, and faults of the source and the sink.
use crate::bench::Bench;
use kb_io::{MemorySink, MemorySource, OpenGate};
use mkbtt_top::status_code;

/// Problems and words that are refused, with their status lines.
const REFUSALS: &str = "$ complete
(VAR x y)(RULES f(x,y) == f(x))
> 3
mkbtt: refused arityclash at 26
$ complete
(VAR x)(RULES x(a) == a)
> 3
mkbtt: refused variableapplied at 14
$ complete
(RULES a == b
> 3
mkbtt: refused unclosed at 14
$ complete
(RULES a ->= b)
> 3
mkbtt: refused relative at 9
$ complete
(RULES a -> b | c -> d)
> 3
mkbtt: refused conditional at 14
$ complete
(THEORY (AC f))(RULES )
> 3
mkbtt: refused theory at 1
$ complete
(STRATEGY INNERMOST)(RULES )
> 3
mkbtt: refused strategy at 1
$ complete --workers 17
(RULES )
> 7
mkbtt: bad words
$ complete --select sizes
(RULES )
> 7
mkbtt: bad words
$ journals
(RULES )
> 7
mkbtt: bad words
";

/// The problem without equations, and what is written of it.
const EMPTY: &str = "(RULES )";

const EMPTY_ANSWER: &str =
    "MKBTT 2\nSYMBOLS\nEQUATIONS 0\nRULES 0\nCONSTRAINTS 0\nORDER LPO\nTRACE 0\nEND\n";

#[test]
fn refusals_have_a_kind_and_a_place(rt: HostRuntime) {
    let bench = Bench {
        rt: &rt,
        alloc: rt.alloc(),
    };
    bench.assert_cases(REFUSALS);
    assert!(rt; bench.ends(&[], &[EMPTY], "7", "mkbtt: bad words\n"));
}

#[test]
fn a_source_that_fails_at_any_call_is_told(rt: HostRuntime) {
    let bench = Bench {
        rt: &rt,
        alloc: rt.alloc(),
    };
    for call in 1..=10u64 {
        let bytes = Vec::from_slice(bench.alloc, EMPTY.as_bytes()).expect(&rt, "memory");
        let fails = Vec::from_slice(bench.alloc, &[call]).expect(&rt, "memory");
        let mut source = MemorySource::new(bytes, fails, 1);
        let mut sink = bench.sink(1000);
        let outcome = bench.perform(&["complete"], &mut source, &mut sink, &OpenGate);
        let is_read = call == 10;
        assert!(rt; status_code(&outcome.status) == if is_read { 0 } else { 4 });
        assert!(rt; sink.bytes().is_empty() == !is_read);
    }
}

#[test]
fn a_sink_that_fails_at_any_call_has_the_front_of_the_answer(rt: HostRuntime) {
    let bench = Bench {
        rt: &rt,
        alloc: rt.alloc(),
    };
    let words = &["complete", "--workers", "1"];
    for call in 1..=73u64 {
        let fails = Vec::from_slice(bench.alloc, &[call]).expect(&rt, "memory");
        let mut source = bench.source(&[EMPTY]);
        let mut sink = MemorySink::new(bench.alloc, 1000, fails, 1).expect(&rt, "memory");
        let outcome = bench.perform(words, &mut source, &mut sink, &OpenGate);
        let written = call as usize - 1;
        assert!(rt; status_code(&outcome.status) == if written < 72 { 5 } else { 0 });
        assert!(rt; sink.bytes() == &EMPTY_ANSWER.as_bytes()[..written]);
    }
}

#[test]
fn a_sink_without_room_has_the_front_of_the_answer(rt: HostRuntime) {
    let bench = Bench {
        rt: &rt,
        alloc: rt.alloc(),
    };
    let words = &["complete", "--workers", "1"];
    for (room, most, written) in [(16, 64, 16), (0, 64, 0), (1000, 0, 0)] {
        let mut source = bench.source(&[EMPTY]);
        let mut sink = MemorySink::new(bench.alloc, room, Vec::new(bench.alloc), most).expect(
            &rt, "memory",
        );
        let outcome = bench.perform(words, &mut source, &mut sink, &OpenGate);
        assert!(rt; status_code(&outcome.status) == 5);
        assert!(rt; sink.bytes().len() == written);
        assert!(rt; EMPTY_ANSWER.as_bytes().starts_with(sink.bytes()));
    }
}
