// Agendas that follow commits offer what one that is made anew offers. What is large is dropped by a call: to let it go at the end of
// a function makes its proof slow.
use crate::steps::{
    close, drain, fork, found, give_up, know, listed, opened, orient, orient_in_index, refuse,
};
use kb_label::Process;
use kb_node::{Job, NodeId};
use mkb_agenda::what_is_offered_first_is_the_first_job;
use mkb_pick::Agenda;
use mkb_rules::State;
use rules_in_use::RulesInUse;
use std::alloc::Global;
use std::mem::drop;
use std::process::Abort;

const TWO_VALUES: &[u8] = b"(RULES f(a) == b f(a) == c)";

// The first process orients node 0; then it is to reduce node 1, and where nothing is found there, to orient it.
fn orient_and_know(rt: &impl Abort, alloc: Global, state: &mut State, agenda: &mut Agenda) {
    let p = Process::root();
    assert!(rt; agenda.next(&[]) == Some(Job::Orient(p, NodeId(0))));
    orient(rt, alloc, state, agenda, (&p, 0));
    assert!(rt; agenda.next(&[]) == Some(Job::Reduce(p, NodeId(1))));
    know(rt, alloc, state, agenda, 1);
    assert!(rt; agenda.next(&[]) == Some(Job::Orient(p, NodeId(1))));
}

#[test]
fn a_new_rule_and_facts_are_followed(rt: HostRuntime) {
    let alloc = rt.alloc();
    let mut state = opened(&rt, alloc, TWO_VALUES);
    let mut agenda = listed(&rt, alloc, &state);
    orient_and_know(&rt, alloc, &mut state, &mut agenda);
    // Orienting node 1, and overlapping the rule with itself.
    assert!(rt; drain(&rt, alloc, &state, &mut agenda) == 2);
    what_is_offered_first_is_the_first_job();
    drop(agenda);
    drop(state);
}

// The first process forks at node 0; then the left child comes first, and each has node 1 to reduce.
fn fork_first(rt: &impl Abort, alloc: Global, state: &mut State, agenda: &mut Agenda) {
    let left = Process::from_bits(&[false]);
    fork(rt, alloc, state, agenda, (&Process::root(), 0));
    assert!(rt; agenda.next(&[]) == Some(Job::Reduce(left, NodeId(1))));
}

#[test]
fn a_fork_is_followed(rt: HostRuntime) {
    let alloc = rt.alloc();
    let mut state = opened(&rt, alloc, TWO_VALUES);
    let mut agenda = listed(&rt, alloc, &state);
    fork_first(&rt, alloc, &mut state, &mut agenda);
    // Of each child: reducing and orienting node 1, and overlapping its rule with itself.
    assert!(rt; drain(&rt, alloc, &state, &mut agenda) == 6);
    drop(agenda);
    drop(state);
}

// The first process refuses its one equation, and is to close; it does, and has nothing left to do.
fn refuse_and_close(rt: &impl Abort, alloc: Global, state: &mut State, agenda: &mut Agenda) {
    let p = Process::root();
    refuse(rt, alloc, state, agenda, (&p, 0));
    assert!(rt; agenda.next(&[]) == Some(Job::Close(p)));
    close(rt, alloc, state, agenda, &p);
    assert!(rt; agenda.next(&[]).is_none());
}

#[test]
fn a_refusal_and_a_closing_are_followed(rt: HostRuntime) {
    let alloc = rt.alloc();
    let mut state = opened(&rt, alloc, b"(RULES a == b)");
    let mut agenda = listed(&rt, alloc, &state);
    refuse_and_close(&rt, alloc, &mut state, &mut agenda);
    assert!(rt; drain(&rt, alloc, &state, &mut agenda) == 0);
    drop(agenda);
    drop(state);
}

#[test]
fn who_gives_up_is_listed_no_more(rt: HostRuntime) {
    let alloc = rt.alloc();
    let p = Process::root();
    let mut state = opened(&rt, alloc, TWO_VALUES);
    let mut agenda = listed(&rt, alloc, &state);
    assert!(rt; agenda.is_listed(&p));
    give_up(&rt, alloc, &mut state, &mut agenda, &p);
    assert!(rt; !agenda.is_listed(&p));
    assert!(rt; drain(&rt, alloc, &state, &mut agenda) == 0);
    drop(agenda);
    drop(state);
}

// No rule is found at f(a) or b before the first process orients their equation, and one afterwards.
fn find_after_orienting(rt: &impl Abort, alloc: Global, state: &mut State, rules: &mut RulesInUse) {
    assert!(rt; found(rt, alloc, rules, 2) == 0);
    orient_in_index(rt, alloc, state, rules, (&Process::root(), 0));
    assert!(rt; found(rt, alloc, rules, 2) == 1);
}

#[test]
fn a_rule_that_comes_into_use_is_found(rt: HostRuntime) {
    let alloc = rt.alloc();
    let mut state = opened(&rt, alloc, TWO_VALUES);
    let mut rules = RulesInUse::of(alloc, &state).expect(&rt, "memory");
    find_after_orienting(&rt, alloc, &mut state, &mut rules);
    drop(rules);
    drop(state);
}
