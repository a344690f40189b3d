// Terms at the limits of depth and of size.
use crate::bench::{Bench, Told};
use kb_io::{MemorySink, MemorySource, OpenGate};
use kb_syntax::{Bound, Kind};
use mkbtt_top::Status;
use std::alloc::Global;
use std::process::Abort;
use std::sync::Wait;
use std::thread::Threads;
use std::time::Clock;

// How often f stands in a term of the greatest depth whose overlap with itself is too deep.
const DEEPEST: usize = 63;

// A problem that is read, whose text is made of parts.
#[derive(Drop)]
struct Text {
    bytes: Vec<u8>,
}

impl Text {
    fn new(alloc: Global) -> Text {
        Text {
            bytes: Vec::new(alloc),
        }
    }

    // With the part behind, so often.
    fn then<R: Abort>(mut self, rt: &R, part: &[u8], times: usize) -> Text {
        for _ in 0..times {
            self.bytes.extend_from_slice(part).expect(rt, "memory");
        }
        self
    }

    // The full binary tree over f and a with this many levels, behind.
    fn then_tree<R: Abort>(self, rt: &R, alloc: Global, levels: usize) -> Text {
        let mut tree = Text::new(alloc).then(rt, b"a", 1);
        for _ in 1..levels {
            let branch = tree.bytes;
            tree = Text::new(alloc)
                .then(rt, b"f(", 1)
                .then(rt, &branch, 1)
                .then(rt, b",", 1)
                .then(rt, &branch, 1)
                .then(rt, b")", 1);
        }
        self.then(rt, &tree.bytes, 1)
    }
}

impl<'a, R: Threads + Wait + Clock + Sync + Abort> Bench<'a, R> {
    // The completion of the text by one worker.
    fn complete(&self, text: Text, sink: &mut MemorySink) -> Told {
        let mut source = MemorySource::new(text.bytes, Vec::new(self.alloc), 1000);
        let words = &["complete", "--workers", "1"];
        self.perform(words, &mut source, sink, &OpenGate)
    }
}

// f so often around x, as the left side of an equation with a.
fn deep<R: Abort>(rt: &R, alloc: Global, times: usize) -> Text {
    Text::new(alloc)
        .then(rt, b"(VAR x)(RULES ", 1)
        .then(rt, b"f(", times)
        .then(rt, b"x", 1)
        .then(rt, b")", times)
        .then(rt, b" == a)", 1)
}

// The full binary tree of size 511 under g so often, as the left side of an equation with a.
fn wide<R: Abort>(rt: &R, alloc: Global, times: usize) -> Text {
    Text::new(alloc)
        .then(rt, b"(RULES ", 1)
        .then(rt, b"g(", times)
        .then_tree(rt, alloc, 9)
        .then(rt, b")", times)
        .then(rt, b" == a)", 1)
}

#[test]
fn the_deepest_term_is_read_and_one_deeper_is_refused(rt: HostRuntime) {
    let bench = Bench {
        rt: &rt,
        alloc: rt.alloc(),
    };
    let mut sink = bench.sink(1000);
    let outcome = bench.complete(deep(&rt, bench.alloc, DEEPEST), &mut sink);
    assert!(rt; outcome.commits == Some(2));
    assert!(rt; sink.bytes() == b"MKBTT 2\nSPENT OVER depth 1\nEND\n".as_slice());
    let mut sink = bench.sink(1000);
    let outcome = bench.complete(deep(&rt, bench.alloc, DEEPEST + 1), &mut sink);
    assert!(rt; outcome.status == Status::Refused(Kind::Limit(Bound::Depth), 142));
    assert!(rt; sink.bytes().is_empty());
}

#[test]
fn the_greatest_term_is_read_and_one_greater_is_refused(rt: HostRuntime) {
    let bench = Bench {
        rt: &rt,
        alloc: rt.alloc(),
    };
    let mut sink = bench.sink(10_000);
    let outcome = bench.complete(wide(&rt, bench.alloc, 1), &mut sink);
    assert!(rt; outcome.status == Status::Done);
    assert!(rt; outcome.commits == Some(3));
    let order = b"\nORDER LPO g f a\n".as_slice();
    assert!(rt;
        sink.bytes()
            .windows(order.len())
            .any(|window| window == order)
    );
    assert!(rt; bench.is_accepted(&sink));
    let mut sink = bench.sink(1000);
    let outcome = bench.complete(wide(&rt, bench.alloc, 2), &mut sink);
    assert!(rt; outcome.status == Status::Refused(Kind::Limit(Bound::Size), 1278));
    assert!(rt; sink.bytes().is_empty());
}
