// What is shown beside the line of a status: hints at what a run read, and how it goes on.
use crate::bench::Bench;
use kb_io::{KeepingSource, OpenGate, Tally, TallyGate};
use mkbtt_top::{hint, status_code};
use std::process::Abort;
use std::sync::Wait;
use std::thread::Threads;
use std::time::Clock;

impl<'a, R: Threads + Wait + Clock + Sync + Abort> Bench<'a, R> {
    /// Whether a run with these words on the text has this hint, and writes nothing.
    fn explains(&self, words: &[&str], text: &str, want: &str) -> bool {
        let mut source = KeepingSource::new(self.alloc, self.source(&[text]));
        let mut sink = self.sink(1000);
        let status = self
            .perform(words, &mut source, &mut sink, &OpenGate)
            .status;
        let kept = source.kept().expect(self.rt, "memory");
        let hint = hint(self.alloc, &status, kept).expect(self.rt, "memory");
        status_code(&status) == 3 && hint.as_slice() == want.as_bytes() && sink.bytes().is_empty()
    }
}

#[test]
fn refusals_have_hints(rt: HostRuntime) {
    let bench = Bench {
        rt: &rt,
        alloc: rt.alloc(),
    };
    for (words, text, want) in [
        (
            &["complete"],
            "(VAR x y)(RULES f(x,y) == f(x))",
            "1 | (VAR x y)(RULES f(x,y) == f(x))\n  |                           ^\nThis symbol has another number of arguments than where it came first: each symbol has one.\n",
        ),
        (
            &["complete"],
            "(RULES\n  a == b\n",
            "3 | \n  | ^\nThe text ends here, within parentheses that are still open.\n",
        ),
        (
            &["check"],
            "MKBTT 2\nSYMBOLS f/1\nEQUATIONS x\n",
            "3 | EQUATIONS x\n  | ^\nThis is the first line that isn't of the form that is read here.\n",
        ),
    ] {
        assert!(rt; bench.explains(words, text, want), "{text}");
    }
}

#[test]
fn a_gate_is_told_how_the_run_goes_on(rt: HostRuntime) {
    let bench = Bench {
        rt: &rt,
        alloc: rt.alloc(),
    };
    // the last of eleven tickets closes one of three processes
    let want = Tally {
        commits: 10,
        nodes: 3,
        living: 3,
        awake: 3,
        cost: 5,
    };
    let gate = TallyGate::new();
    let mut source = bench.source(&["(RULES f(a) == b f(a) == c)"]);
    let mut sink = bench.sink(1000);
    let words = &["complete", "--workers", "1"];
    let outcome = bench.perform(words, &mut source, &mut sink, &gate);
    assert!(rt; status_code(&outcome.status) == 0);
    assert!(rt; gate.tally() == want);
}
