// The smallest answer: no equations and no rules.
use kb_cert::Certificate;
use kb_checker::{Answer, Checked, check, verdicts_are_one};
use kb_lpo::Precedence;
use kb_reduce::{Reduction, reduce};
use kb_term::{Problem, Signature};
use kb_trace::Trace;
use std::alloc::Global;

fn empty_answer(alloc: Global) -> Answer {
    let problem = Problem::new(Signature::new(Vec::new(alloc)), Vec::new(alloc));
    let cert = Certificate::Lpo(Precedence::new(Vec::new(alloc)));
    Answer::new(
        problem,
        Vec::new(alloc),
        Vec::new(alloc),
        cert,
        Trace::new(Vec::new(alloc)),
    )
}

#[test]
fn an_answer_without_rules_is_good_for_no_equations(rt: HostRuntime) {
    let alloc = rt.alloc();
    let checked = check(alloc, &empty_answer(alloc)).expect(&rt, "memory");
    assert!(rt; checked == Checked::Accepted);
}

#[test]
fn an_answer_has_one_verdict(_rt: HostRuntime) {
    verdicts_are_one();
}

#[test]
fn an_answer_without_rules_is_reduced(rt: HostRuntime) {
    let alloc = rt.alloc();
    let answer = empty_answer(alloc);
    match reduce(alloc, &answer).expect(&rt, "memory") {
        Reduction::Reduced(made) => assert!(rt; made.rules().is_empty()),
        _ => assert!(rt; false),
    }
}
