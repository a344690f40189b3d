// Completions of problems, generated problems and their summaries.
use crate::bench::Bench;
use kb_io::{MemorySource, OpenGate};
use kb_syntax::{Bound, Kind};
use mkbtt_top::Status;

/// The axioms of groups.
pub(crate) const GROUP: &str =
    "(VAR x y z)(RULES m(e,x) == x m(i(x),x) == e m(m(x,y),z) == m(x,m(y,z)))";

/// Completions by one worker, and what else is written of problems.
const COMPLETIONS: &str = "$ complete --workers 1
(VAR x)(RULES f(x) == x)
> 0 3
MKBTT 2
SYMBOLS f/1
EQUATIONS 1
f(x1) = x1
RULES 1
f(x1) -> x1 : 1
CONSTRAINTS 1
f(x1) -> x1 : 1
ORDER LPO f
TRACE 1
1 input 1 : x1 = f(x1)
END
$ complete --workers 1
(RULES )
> 0 1
MKBTT 2
SYMBOLS
EQUATIONS 0
RULES 0
CONSTRAINTS 0
ORDER LPO
TRACE 0
END
$ complete --workers 1
(VAR x)(RULES f(f(x)) == a)
> 0 8
MKBTT 2
SYMBOLS f/1 a/0
EQUATIONS 1
f(f(x1)) = a
RULES 2
f(f(x1)) -> a : 1
f(a) -> a : 2
CONSTRAINTS 2
f(f(x1)) -> a : 1
f(a) -> a : 2
ORDER LPO f a
TRACE 2
1 input 1 : f(f(x1)) = a
2 overlap 1 dir 0 with 1 dir 0 at 1 : f(a) = a
END
$ complete --workers 1
(RULES a == a)
> 0 1
MKBTT 2
SYMBOLS a/0
EQUATIONS 1
a = a
RULES 0
CONSTRAINTS 0
ORDER LPO a
TRACE 0
END
$ complete --workers 1
(VAR x y)(RULES f(x) == x f(y) == y)
> 0 3
MKBTT 2
SYMBOLS f/1
EQUATIONS 2
f(x1) = x1
f(x1) = x1
RULES 1
f(x1) -> x1 : 1
CONSTRAINTS 1
f(x1) -> x1 : 1
ORDER LPO f
TRACE 1
1 input 1 : x1 = f(x1)
END
$ complete --workers 1
(VAR x)(RULES f(x) == x g(x) == f(x))
> 0 9
MKBTT 2
SYMBOLS f/1 g/1
EQUATIONS 2
f(x1) = x1
g(x1) = f(x1)
RULES 2
f(x1) -> x1 : 1
g(x1) -> x1 : 3
CONSTRAINTS 2
f(x1) -> x1 : 1
g(x1) -> x1 : 3
ORDER LPO f g
TRACE 3
1 input 1 : x1 = f(x1)
2 input 2 : f(x1) = g(x1)
3 rewrite 2 side 0 at e by 1 dir 1 : x1 = g(x1)
END
$ complete --workers 1
(RULES a == b)
> 0 3
MKBTT 2
SYMBOLS a/0 b/0
EQUATIONS 1
a = b
RULES 1
a -> b : 1
CONSTRAINTS 1
a -> b : 1
ORDER LPO a b
TRACE 1
1 input 1 : a = b
END
$ complete --workers 1
(VAR x)(RULES f(f(x)) == g(x))
> 0 4
MKBTT 2
SYMBOLS f/1 g/1
EQUATIONS 1
f(f(x1)) = g(x1)
RULES 1
g(x1) -> f(f(x1)) : 1
CONSTRAINTS 1
g(x1) -> f(f(x1)) : 1
ORDER LPO g f
TRACE 1
1 input 1 : f(f(x1)) = g(x1)
END
$ complete --workers 1
(RULES f(a) == b f(a) == c)
> 0 11
MKBTT 2
SYMBOLS f/1 a/0 b/0 c/0
EQUATIONS 2
f(a) = b
f(a) = c
RULES 2
f(a) -> c : 2
b -> c : 3
CONSTRAINTS 2
f(a) -> b : 1
b -> c : 3
ORDER LPO f a b c
TRACE 3
1 input 1 : f(a) = b
2 input 2 : f(a) = c
3 rewrite 2 side 0 at e by 1 dir 0 : b = c
END
$ complete --workers 1
(VAR x y)(RULES f(x,y) == f(y,x))
> 1 2
MKBTT 2
FAILED 1
END
$ complete --workers 1
(VAR x y)(RULES x == y)
> 1 2
MKBTT 2
FAILED 1
END
$ complete --workers 1
(VAR x)(RULES f(f(f(f(f(f(f(f(f(f(f(f(f(f(f(f(f(f(f(f(f(f(f(f(f(f(f(f(f(f(f(f(f(f(f(f(f(f(f(f(x)))))))))))))))))))))))))))))))))))))))) == a)
> 2 2
MKBTT 2
SPENT OVER depth 1
END
$ complete --workers 1 --budget 1
(RULES f(a) == b f(a) == c)
> 2 1
MKBTT 2
SPENT COMMITS 1 2
END
$ complete --workers 1 --budget 5000
(VAR x y z)(RULES m(e,x) == x m(i(x),x) == e m(m(x,y),z) == m(x,m(y,z)))
> 2 5000
MKBTT 2
SPENT COMMITS 5000 2
END
$ gen --number 2

> 0
(VAR x1)
(RULES
f0(f0(x1)) == f1(x1)
f1(f0(x1)) == f2(x1)
)
$ summary --number 1

> 0 4
verdict complete 1
commits 4
drops 0
nodes 2
dead 0
forks 1
living 2
over 0
rules 1
$ summary --number 8 --budget 500

> 0 500
verdict spent commits
commits 500
drops 0
nodes 39
dead 1
forks 56
living 57
over 0
rules 0
$ summary --number 8 --budget 500

> 0 500
verdict spent commits
commits 500
drops 0
nodes 39
dead 1
forks 56
living 57
over 0
rules 0
";

#[test]
fn problems_are_completed_and_summed_up(rt: HostRuntime) {
    let bench = Bench {
        rt: &rt,
        alloc: rt.alloc(),
    };
    bench.assert_cases(COMPLETIONS);
}

#[test]
fn groups_are_completed_by_the_selection_of_small_terms(rt: HostRuntime) {
    let bench = Bench {
        rt: &rt,
        alloc: rt.alloc(),
    };
    let mut source = bench.source(&[GROUP]);
    let mut sink = bench.sink(100_000);
    let words = &["complete", "--workers", "1", "--select", "size"];
    let outcome = bench.perform(words, &mut source, &mut sink, &OpenGate);
    assert!(rt; outcome.status == Status::Done);
    assert!(rt; bench.is_accepted(&sink));
    let words = &["complete", "--workers", "1", "--budget", "600"];
    let mut source = bench.source(&[GROUP]);
    let mut sink = bench.sink(100_000);
    let outcome = bench.perform(words, &mut source, &mut sink, &OpenGate);
    assert!(rt; outcome.status != Status::Done);
}

/// A comment with so many letters, and the empty problem behind it.
fn commented<R>(bench: &Bench<'_, R>, letters: usize) -> Option<MemorySource> {
    let mut bytes = Vec::from_slice(bench.alloc, b"(COMMENT ").ok()?;
    bytes.reserve(letters).ok()?;
    for _ in 0..letters {
        bytes.push(b'a').ok()?;
    }
    bytes.extend_from_slice(b")(RULES )").ok()?;
    Some(MemorySource::new(bytes, Vec::new(bench.alloc), 65_536))
}

#[test]
fn a_text_of_1048576_bytes_is_read_and_one_byte_more_is_refused(rt: HostRuntime) {
    let bench = Bench {
        rt: &rt,
        alloc: rt.alloc(),
    };
    let long = Status::Refused(Kind::Limit(Bound::Input), 1_048_576);
    for (letters, status, written) in [(1_048_558, Status::Done, 72), (1_048_559, long, 0)] {
        let mut source = commented(&bench, letters).expect(&rt, "memory");
        let mut sink = bench.sink(1000);
        let outcome = bench.perform(&["complete"], &mut source, &mut sink, &OpenGate);
        assert!(rt; outcome.status == status);
        assert!(rt; sink.bytes().len() == written);
    }
}

#[test]
fn sixty_four_of_128_processes_are_asleep_where_the_first_is_complete(rt: HostRuntime) {
    let bench = Bench {
        rt: &rt,
        alloc: rt.alloc(),
    };
    let text = "(RULES a1 == b1 a2 == b2 a3 == b3 a4 == b4 a5 == b5 a6 == b6 a7 == b7)";
    let mut source = bench.source(&[text]);
    let mut sink = bench.sink(100_000);
    let outcome = bench.perform(
        &["complete", "--workers", "1"],
        &mut source,
        &mut sink,
        &OpenGate,
    );
    assert!(rt; outcome.status == Status::Done);
    assert!(rt; outcome.processes == Some((128, 64)));
    assert!(rt; bench.is_accepted(&sink));
}
