// Completions by several workers.
use crate::bench::Bench;
use crate::completions::GROUP;
use kb_io::HoldGate;
use mkbtt_top::status_code;

#[test]
fn an_answer_for_groups_is_accepted(rt: HostRuntime) {
    let bench = Bench {
        rt: &rt,
        alloc: rt.alloc(),
    };
    for workers in ["1", "2", "4"] {
        let words = &["complete", "--budget", "300", "--workers", workers];
        assert!(rt; bench.is_sound(words, GROUP));
        let words = &["complete", "--select", "size", "--workers", workers];
        assert!(rt; bench.is_sound(words, GROUP));
    }
}

#[test]
fn two_workers_hold_two_tickets_at_once(rt: HostRuntime) {
    let bench = Bench {
        rt: &rt,
        alloc: rt.alloc(),
    };
    let gate = HoldGate::new(2, 3);
    let mut source = bench.source(&["(RULES a == b)"]);
    let mut sink = bench.sink(1000);
    let words = &["complete", "--workers", "2"];
    let outcome = bench.perform(words, &mut source, &mut sink, &gate);
    assert!(rt; status_code(&outcome.status) == 0);
    assert!(rt; gate.met());
}

/// A dozen small problems of several kinds: one process and forks, failures, limits, nothing to do.
const DOZEN: [&str; 12] = [
    "(RULES )",
    "(RULES a == b)",
    "(RULES f(a) == b f(a) == c)",
    "(VAR x)(RULES f(x) == x)",
    "(VAR x)(RULES f(f(x)) == a)",
    "(VAR x)(RULES f(f(x)) == g(x))",
    "(VAR x)(RULES f(x) == x g(x) == f(x))",
    "(VAR x y)(RULES f(x,y) == f(y,x))",
    "(VAR x y)(RULES f(x) == x f(y) == y)",
    "(VAR x)(RULES f(g(x)) == h(x) g(h(x)) == f(x))",
    "(VAR x y z)(RULES m(m(x,y),z) == m(x,m(y,z)) m(e,x) == x)",
    "(VAR x)(RULES f(f(f(x))) == x f(f(f(f(f(x))))) == x)",
];

#[test]
fn sixteen_workers_answer_a_dozen_problems(rt: HostRuntime) {
    let bench = Bench {
        rt: &rt,
        alloc: rt.alloc(),
    };
    for select in ["stated", "size"] {
        let words = &[
            "complete",
            "--budget",
            "60",
            "--workers",
            "16",
            "--select",
            select,
        ];
        for _ in 0..4u32 {
            for text in DOZEN {
                assert!(rt; bench.is_sound(words, text));
            }
        }
    }
}
