// Journals of runs, and what comes of making their entries again.
use crate::bench::Bench;
use kb_io::{MemorySink, MemorySource, OpenGate};
use mkbtt_top::{Status, status_code};
use std::process::Abort;
use std::sync::Wait;
use std::thread::Threads;
use std::time::Clock;

/// The journals of one worker on problems of several kinds.
const WRITTEN: &str = "$ journal --workers 1
(RULES )
> 0 1
MKBTT JOURNAL 2
BUDGET 20000
SYMBOLS
EQUATIONS 0
ENTRIES 2
take 1 1 close e
commit 1 closed
END
$ journal --workers 1
(RULES a == b)
> 0 3
MKBTT JOURNAL 2
BUDGET 20000
SYMBOLS a/0 b/0
EQUATIONS 1
a = b
ENTRIES 6
take 1 1 orient e 0
commit 1 fork
take 1 2 overlap 0 0.0 0.0
commit 2 deduced 0
take 1 3 close 0
commit 3 closed
END
$ journal --workers 1
(VAR x)(RULES f(f(x)) == a)
> 0 8
MKBTT JOURNAL 2
BUDGET 20000
SYMBOLS f/1 a/0
EQUATIONS 1
f(f(x1)) = a
ENTRIES 16
take 1 1 orient e 0
commit 1 oriented 0
take 1 2 overlap e 0.0 0.0
commit 2 deduced 1
take 1 3 reduce e 1
commit 3 facts 2
take 1 4 orient e 1
commit 4 oriented 0
take 1 5 reduce e 0
commit 5 facts 2
take 1 6 overlap e 0.0 1.0
commit 6 deduced 1
take 1 7 overlap e 1.0 1.0
commit 7 deduced 0
take 1 8 close e
commit 8 closed
END
$ journal --workers 1
(VAR x)(RULES f(x) == x g(x) == f(x))
> 0 9
MKBTT JOURNAL 2
BUDGET 20000
SYMBOLS f/1 g/1
EQUATIONS 2
f(x1) = x1
g(x1) = f(x1)
ENTRIES 18
take 1 1 orient e 0
commit 1 oriented 1
take 1 2 reduce e 1
commit 2 rewrite 2
take 1 3 reduce e 2
commit 3 facts 2
take 1 4 orient e 2
commit 4 oriented 1
take 1 5 reduce e 0
commit 5 facts 2
take 1 6 overlap e 0.1 0.1
commit 6 deduced 0
take 1 7 overlap e 0.1 2.1
commit 7 deduced 0
take 1 8 overlap e 2.1 2.1
commit 8 deduced 0
take 1 9 close e
commit 9 closed
END
$ journal --workers 1
(VAR x)(RULES f(f(x)) == g(x))
> 0 4
MKBTT JOURNAL 2
BUDGET 20000
SYMBOLS f/1 g/1
EQUATIONS 1
f(f(x1)) = g(x1)
ENTRIES 8
take 1 1 orient e 0
commit 1 fork
take 1 2 overlap 0 0.0 0.0
commit 2 deduced 1
take 1 3 overlap 1 0.1 0.1
commit 3 deduced 0
take 1 4 close 1
commit 4 closed
END
$ journal --workers 1
(RULES f(a) == b f(a) == c)
> 0 11
MKBTT JOURNAL 2
BUDGET 20000
SYMBOLS f/1 a/0 b/0 c/0
EQUATIONS 2
f(a) = b
f(a) = c
ENTRIES 22
take 1 1 orient e 0
commit 1 fork
take 1 2 reduce 0 1
commit 2 rewrite 2
take 1 3 reduce 0 2
commit 3 facts 2
take 1 4 orient 0 2
commit 4 fork
take 1 5 reduce 00 0
commit 5 rewrite 1
take 1 6 reduce 00 1
commit 6 facts 2
take 1 7 reduce 00 2
commit 7 facts 2
take 1 8 overlap 00 1.0 1.0
commit 8 deduced 0
take 1 9 overlap 00 1.0 2.0
commit 9 deduced 0
take 1 10 overlap 00 2.0 2.0
commit 10 deduced 0
take 1 11 close 00
commit 11 closed
END
$ journal --workers 1
(VAR x y)(RULES f(x,y) == f(y,x))
> 1 2
MKBTT JOURNAL 2
BUDGET 20000
SYMBOLS f/2
EQUATIONS 1
f(x1,x2) = f(x2,x1)
ENTRIES 4
take 1 1 orient e 0
commit 1 refused
take 1 2 close e
commit 2 closed
END
$ journal --workers 1
(VAR x)(RULES f(f(f(f(f(f(f(f(f(f(f(f(f(f(f(f(f(f(f(f(f(f(f(f(f(f(f(f(f(f(f(f(f(f(f(f(f(f(f(f(x)))))))))))))))))))))))))))))))))))))))) == a)
> 2 2
MKBTT JOURNAL 2
BUDGET 20000
SYMBOLS f/1 a/0
EQUATIONS 1
f(f(f(f(f(f(f(f(f(f(f(f(f(f(f(f(f(f(f(f(f(f(f(f(f(f(f(f(f(f(f(f(f(f(f(f(f(f(f(f(x1)))))))))))))))))))))))))))))))))))))))) = a
ENTRIES 4
take 1 1 orient e 0
commit 1 oriented 0
take 1 2 overlap e 0.0 0.0
commit 2 over depth
END
";

/// The journal of one of them.
const JOURNAL: &str =
    "MKBTT JOURNAL 2;BUDGET 20000;SYMBOLS f/1 a/0;EQUATIONS 1;f(f(x1)) = a;ENTRIES 16;take 1 1 orient e 0;commit 1 oriented 0;take 1 2 overlap e 0.0 0.0;commit 2 deduced 1;take 1 3 reduce e 1;commit 3 facts 2;take 1 4 orient e 1;commit 4 oriented 0;take 1 5 reduce e 0;commit 5 facts 2;take 1 6 overlap e 0.0 1.0;commit 6 deduced 1;take 1 7 overlap e 1.0 1.0;commit 7 deduced 0;take 1 8 close e;commit 8 closed;END;";

/// Journals of other runs to its board.
const SAME: &str =
    "MKBTT JOURNAL 2;BUDGET 20000;SYMBOLS f/1 a/0;EQUATIONS 1;f(f(x1)) = a;ENTRIES 16;take 1 1 orient e 0;commit 1 oriented 0;take 1 2 overlap e 0.0 0.0;commit 2 deduced 1;take 1 3 reduce e 1;commit 3 facts 2;take 1 4 orient e 1;commit 4 oriented 0;take 1 5 reduce e 0;commit 5 facts 2;take 1 6 overlap e 0.0 1.0;commit 6 deduced 1;take 1 7 overlap e 1.0 1.0;commit 7 deduced 0;take 1 8 close e;commit 8 closed;END; | MKBTT JOURNAL 2;BUDGET 20000;SYMBOLS f/1 a/0;EQUATIONS 1;f(f(x1)) = a;ENTRIES 16;take 1 1 orient e 0;commit 1 oriented 0;take 1 2 overlap e 0.0 0.0;commit 2 deduced 1;take 1 3 reduce e 1;commit 3 facts 2;take 1 4 orient e 1;commit 4 oriented 0;take 1 5 reduce e 0;commit 5 facts 2;take 1 6 overlap e 0.0 1.0;commit 6 deduced 1;take 1 7 overlap e 1.0 1.0;commit 7 deduced 0;take 1 8 close e;commit 8 closed;END; | verdict complete e;commits 8;drops 0;nodes 2;dead 0;forks 0;living 1;over 0;rules 2
BUDGET 20000; | BUDGET 8; | verdict complete e;commits 8;drops 0;nodes 2;dead 0;forks 0;living 1;over 0;rules 2
BUDGET 20000; | BUDGET 100000; | verdict complete e;commits 8;drops 0;nodes 2;dead 0;forks 0;living 1;over 0;rules 2
take 1 2 overlap e 0.0 0.0; | take 16 2 overlap e 0.0 0.0; | verdict complete e;commits 8;drops 0;nodes 2;dead 0;forks 0;living 1;over 0;rules 2
commit 3 facts 2;take 1 4 orient e 1; | take 1 4 orient e 1;commit 3 facts 2; | verdict complete e;commits 8;drops 0;nodes 2;dead 0;forks 0;living 1;over 0;rules 2
commit 6 deduced 1;take 1 7 overlap e 1.0 1.0; | take 2 7 overlap e 1.0 1.0;commit 6 deduced 1; | verdict complete e;commits 8;drops 0;nodes 2;dead 0;forks 0;living 1;over 0;rules 2
";

/// Journals with an entry that no board makes.
const ALTERED: &str = "commit 1 oriented 0; | commit 1 oriented 1; | BAD ENTRY 2
take 1 2 overlap e 0.0 0.0; | take 1 2 close e; | BAD ENTRY 3
take 1 2 overlap e 0.0 0.0; | take 1 2 overlap e 1.0 0.0; | BAD ENTRY 3
commit 2 deduced 1; | commit 2 deduced 2; | BAD ENTRY 4
take 1 3 reduce e 1; | take 1 3 reduce e 4095; | BAD ENTRY 5
commit 3 facts 2; | commit 3 facts 1; | BAD ENTRY 6
commit 1 oriented 0; | commit 1 fork; | BAD ENTRY 2
commit 1 oriented 0; | commit 1 refused; | BAD ENTRY 2
commit 2 deduced 1; | commit 2 oriented 1; | BAD ENTRY 4
commit 2 deduced 1; | commit 2 rewrite 1; | BAD ENTRY 4
commit 2 deduced 1; | commit 2 over size; | BAD ENTRY 4
commit 2 deduced 1; | drop 2 e; | BAD ENTRY 4
commit 3 facts 2; | commit 3 rewrite trivial; | BAD ENTRY 6
commit 8 closed; | commit 8 unjoined 1; | BAD ENTRY 16
commit 1 oriented 0; | commit 2 oriented 0; | BAD ENTRY 2
commit 1 oriented 0; | commit 18446744073709551615 oriented 0; | BAD ENTRY 2
take 1 2 overlap e 0.0 0.0; | take 1 1 overlap e 0.0 0.0; | BAD ENTRY 3
take 1 2 overlap e 0.0 0.0; | take 1 3 overlap e 0.0 0.0; | BAD ENTRY 3
commit 2 deduced 1; | commit 1 deduced 1; | BAD ENTRY 4
take 1 1 orient e 0; | take 1 1 orient 1 0; | BAD ENTRY 1
take 1 2 overlap e 0.0 0.0; | take 1 2 overlap 0 0.0 0.0; | BAD ENTRY 3
take 1 2 overlap e 0.0 0.0; | take 1 2 overlap 00 0.0 0.0; | BAD ENTRY 3
take 1 8 close e; | take 1 8 close 0; | BAD ENTRY 15
take 1 1 orient e 0;commit 1 oriented 0; | commit 1 oriented 0;take 1 1 orient e 0; | BAD ENTRY 1
commit 1 oriented 0;take 1 2 overlap e 0.0 0.0; | take 1 2 overlap e 0.0 0.0;commit 1 oriented 0; | BAD ENTRY 2
take 1 2 overlap e 0.0 0.0;commit 2 deduced 1; | commit 2 deduced 1;take 1 2 overlap e 0.0 0.0; | BAD ENTRY 3
commit 7 deduced 0;take 1 8 close e; | take 1 8 close e;commit 7 deduced 0; | BAD ENTRY 14
BUDGET 20000; | BUDGET 7; | BAD ENTRY 15
BUDGET 20000; | BUDGET 20000;SELECTION size; | BAD ENTRY 11
f/1 a/0; | a/0 f/1; | BAD ENTRY 2
f(f(x1)) = a; | f(x1) = a; | BAD ENTRY 4
BUDGET 20000; | BUDGET 3; | BAD ENTRY 7
take 1 1 orient e 0; | take 1 2 orient e 0; | BAD ENTRY 1
commit 1 oriented 0; | drop 1 e; | BAD ENTRY 2
commit 1 oriented 0; | abandon 2; | BAD ENTRY 2
";

/// Texts that are no journal.
const REFUSED: &str = "EQUATIONS 1; | EQUATIONS 0; | mkbtt: refused line 5
EQUATIONS 1; | EQUATIONS 2; | mkbtt: refused line 6
ENTRIES 16; | ENTRIES 15; | mkbtt: refused line 22
ENTRIES 16; | ENTRIES 17; | mkbtt: refused line 23
ENTRIES 16; | ENTRIES 18446744073709551615; | mkbtt: refused line 23
commit 1 oriented 0; |  | mkbtt: refused line 22
BUDGET 20000; | BUDGET 020000; | mkbtt: refused line 2
EQUATIONS 1; | EQUATIONS 01; | mkbtt: refused line 4
ENTRIES 16; | ENTRIES 016; | mkbtt: refused line 6
take 1 1 orient e 0; | take 01 1 orient e 0; | mkbtt: refused line 7
take 1 1 orient e 0; | take 1 01 orient e 0; | mkbtt: refused line 7
commit 1 oriented 0; | commit 1 oriented 00; | mkbtt: refused line 8
take 1 2 overlap e 0.0 0.0; | take 1 2 overlap e 00.0 0.0; | mkbtt: refused line 9
commit 2 deduced 1; | commit 02 deduced 1; | mkbtt: refused line 10
commit 2 deduced 1; | commit 2 deduced 01; | mkbtt: refused line 10
take 1 3 reduce e 1; | take 1 3 reduce e 01; | mkbtt: refused line 11
BUDGET 20000; | BUDGET 100001; | mkbtt: refused line 2
ENTRIES 16; | ENTRIES 18446744073709551616; | mkbtt: refused line 6
take 1 1 orient e 0; | take 0 1 orient e 0; | mkbtt: refused line 7
take 1 1 orient e 0; | take 1 0 orient e 0; | mkbtt: refused line 7
commit 1 oriented 0; | commit 1 oriented 2; | mkbtt: refused line 8
commit 1 oriented 0; | commit 18446744073709551616 oriented 0; | mkbtt: refused line 8
take 1 2 overlap e 0.0 0.0; | take 1 2 overlap e 0.2 0.0; | mkbtt: refused line 9
take 1 3 reduce e 1; | take 1 3 reduce e 4096; | mkbtt: refused line 11
MKBTT JOURNAL 2; | mkbtt journal 2; | mkbtt: refused line 1
BUDGET 20000; | budget 20000; | mkbtt: refused line 2
BUDGET 20000; | BUDGET 20000;SELECTION stated; | mkbtt: refused line 3
ENTRIES 16; | entries 16; | mkbtt: refused line 6
take 1 1 orient e 0; | Take 1 1 orient e 0; | mkbtt: refused line 7
take 1 1 orient e 0; | take 1 1 orient E 0; | mkbtt: refused line 7
commit 1 oriented 0; | commit  1 oriented 0; | mkbtt: refused line 8
commit 1 oriented 0; | commit 1 oriented 0 ; | mkbtt: refused line 8
commit 2 deduced 1; | commit 2 rewrote 1; | mkbtt: refused line 10
commit 2 deduced 1; | commit 2 deduced; | mkbtt: refused line 10
END; | end; | mkbtt: refused line 23
END; |  | mkbtt: refused line 23
END; | END | mkbtt: refused line 23
END; | END ; | mkbtt: refused line 23
END; | halt;END; | mkbtt: refused line 23
END; | END;x | mkbtt: refused line 24
END; | END;; | mkbtt: refused line 24
MKBTT JOURNAL 2;BUDGET 20000;SYMBOLS f/1 a/0;EQUATIONS 1;f(f(x1)) = a;ENTRIES 16;take 1 1 orient e 0;commit 1 oriented 0;take 1 2 overlap e 0.0 0.0;commit 2 deduced 1;take 1 3 reduce e 1;commit 3 facts 2;take 1 4 orient e 1;commit 4 oriented 0;take 1 5 reduce e 0;commit 5 facts 2;take 1 6 overlap e 0.0 1.0;commit 6 deduced 1;take 1 7 overlap e 1.0 1.0;commit 7 deduced 0;take 1 8 close e;commit 8 closed;END; |  | mkbtt: refused line 1
MKBTT JOURNAL 2; | MKBTT JOURNAL 1; | mkbtt: refused line 1
BUDGET 20000; | BUDGET 0; | mkbtt: refused line 2
take 1 1 orient e 0; | take 17 1 orient e 0; | mkbtt: refused line 7
take 1 1 orient e 0; | take 1 1 orient 00e 0; | mkbtt: refused line 7
";

/// A journal of the same problem without entries.
const OPENING: &str =
    "MKBTT JOURNAL 2;BUDGET 20000;SYMBOLS f/1 a/0;EQUATIONS 1;f(f(x1)) = a;ENTRIES 0;END;";

/// Journals that end before a verdict.
const BEFORE: &str =
    "ENTRIES 0; | ENTRIES 0; | verdict none;commits 0;drops 0;nodes 1;dead 0;forks 0;living 1;over 0;rules 0
ENTRIES 0; | ENTRIES 1;halt; | verdict none;commits 0;drops 0;nodes 1;dead 0;forks 0;living 1;over 0;rules 0
ENTRIES 0; | ENTRIES 1;take 1 1 orient e 0; | verdict none;commits 0;drops 0;nodes 1;dead 0;forks 0;living 1;over 0;rules 0
ENTRIES 0; | ENTRIES 2;take 1 1 orient e 0;abandon 1; | verdict none;commits 0;drops 0;nodes 1;dead 0;forks 0;living 1;over 0;rules 0
ENTRIES 0; | ENTRIES 2;take 1 1 orient e 0;commit 1 oriented 0; | verdict none;commits 1;drops 0;nodes 1;dead 0;forks 0;living 1;over 0;rules 0
ENTRIES 0; | ENTRIES 3;take 1 1 orient e 0;halt;commit 1 oriented 0; | verdict none;commits 1;drops 0;nodes 1;dead 0;forks 0;living 1;over 0;rules 0
ENTRIES 0; | ENTRIES 4;take 1 1 orient e 0;abandon 1;take 2 2 orient e 0;commit 2 oriented 0; | verdict none;commits 1;drops 0;nodes 1;dead 0;forks 0;living 1;over 0;rules 0
ENTRIES 0; | ENTRIES 1;abandon 1; | BAD ENTRY 1
ENTRIES 0; | ENTRIES 3;take 1 1 orient e 0;commit 1 oriented 0;abandon 1; | BAD ENTRY 3
ENTRIES 0; | ENTRIES 3;take 1 1 orient e 0;abandon 1;abandon 1; | BAD ENTRY 3
ENTRIES 0; | ENTRIES 3;take 1 1 orient e 0;abandon 1;commit 1 oriented 0; | BAD ENTRY 3
ENTRIES 0; | ENTRIES 3;take 1 1 orient e 0;abandon 1;take 1 1 orient e 0; | BAD ENTRY 3
ENTRIES 0; | ENTRIES 2;halt;halt; | BAD ENTRY 2
ENTRIES 0; | ENTRIES 2;halt;take 1 1 orient e 0; | BAD ENTRY 2
";

/// The journal of the problem without equations.
const CLOSED: &str =
    "MKBTT JOURNAL 2;BUDGET 20000;SYMBOLS;EQUATIONS 0;ENTRIES 2;take 1 1 close e;commit 1 closed;END;";

/// Journals with more entries behind the verdict.
const BEHIND: &str =
    "ENTRIES 2;take 1 1 close e;commit 1 closed; | ENTRIES 3;take 1 1 close e;commit 1 closed;halt; | verdict complete e;commits 1;drops 0;nodes 0;dead 0;forks 0;living 1;over 0;rules 0
ENTRIES 2;take 1 1 close e;commit 1 closed; | ENTRIES 4;take 1 1 close e;commit 1 closed;halt;halt; | BAD ENTRY 4
ENTRIES 2;take 1 1 close e;commit 1 closed; | ENTRIES 4;take 1 1 close e;commit 1 closed;halt;take 1 2 close e; | BAD ENTRY 4
ENTRIES 2;take 1 1 close e;commit 1 closed; | ENTRIES 3;take 1 1 close e;commit 1 closed;take 1 2 close e; | BAD ENTRY 3
ENTRIES 2;take 1 1 close e;commit 1 closed; | ENTRIES 3;take 1 1 close e;commit 1 closed;commit 1 closed; | BAD ENTRY 3
ENTRIES 2;take 1 1 close e;commit 1 closed; | ENTRIES 3;take 1 1 close e;commit 1 closed;abandon 1; | BAD ENTRY 3
";

#[test]
fn journals_are_written(rt: HostRuntime) {
    let bench = Bench {
        rt: &rt,
        alloc: rt.alloc(),
    };
    bench.assert_cases(WRITTEN);
}

#[test]
fn journals_are_made_again_up_to_the_first_entry_that_no_board_makes(rt: HostRuntime) {
    let bench = Bench {
        rt: &rt,
        alloc: rt.alloc(),
    };
    for (text, table) in [
        (JOURNAL, SAME),
        (JOURNAL, ALTERED),
        (JOURNAL, REFUSED),
        (OPENING, BEFORE),
        (CLOSED, BEHIND),
    ] {
        bench.assert_altered(&["replay"], text, table);
    }
}

impl<'a, R: Threads + Wait + Clock + Sync + Abort> Bench<'a, R> {
    /// Whether the replay of what so many workers write of their run on the problem makes as many commits.
    fn is_made_again(&self, problem: &str, workers: &str) -> bool {
        let mut source = self.source(&[problem]);
        let mut sink = self.sink(100_000);
        let words = &["journal", "--budget", "60", "--workers", workers];
        let written = self.perform(words, &mut source, &mut sink, &OpenGate);
        status_code(&written.status) <= 2 && self.is_replayed(&sink, written.commits)
    }

    /// Whether the replay of what the sink was given ends with a board of so many commits.
    fn is_replayed(&self, sink: &MemorySink, count: Option<u32>) -> bool {
        let bytes = Vec::from_slice(self.alloc, sink.bytes()).expect(self.rt, "memory");
        let mut journal = MemorySource::new(bytes, Vec::new(self.alloc), 1000);
        let mut summary = self.sink(1000);
        let made = self.perform(&["replay"], &mut journal, &mut summary, &OpenGate);
        made.status == Status::Done && made.commits == count
    }
}

#[test]
fn journals_of_one_two_and_four_workers_are_made_again(rt: HostRuntime) {
    let bench = Bench {
        rt: &rt,
        alloc: rt.alloc(),
    };
    for problem in [
        "(VAR x)(RULES f(f(x)) == a)",
        "(RULES f(a) == b f(a) == c)",
        "(VAR x)(RULES f(g(x)) == h(x) g(h(x)) == f(x))",
    ] {
        for workers in ["1", "2", "4"] {
            assert!(rt; bench.is_made_again(problem, workers), "{problem}");
        }
    }
}
