// Each call and each reader on a small state. The steps take the state by reference, and it is dropped by a call: to let
// it go at the end of a function makes its proof slow.
use crate::calls::{acts_on, apply, fork, has, is_dropped, is_pair, opened, orient, unjoined};
use crate::terms::{applied_and_bare, first, forth, left, overlap, right};
use kb_label::Living;
use kb_node::{Deduced, LabelKind, NodeId};
use mkb_model::Settings;
use mkb_rules::{Applied, State};
use std::alloc::Global;
use std::mem::drop;
use std::process::Abort;

// The state has one process, two equations, and no commit of the 100 that there may be.
fn is_new(rt: &impl Abort, state: &State) {
    assert_eq!(rt; state.commits(), 0);
    assert_eq!(rt; state.settings(), Settings::stated(100));
    assert_eq!(rt; state.nodes().len(), 2);
    assert_eq!(rt; state.problem().equations().len(), 2);
    assert_eq!(rt; state.log().living(), 1);
    assert!(rt; state.log().is_living(&first()));
}

// The first process has both equations, and is neither closed nor over.
fn has_equations(rt: &impl Abort, state: &State) {
    assert!(rt; has(state, &first(), 0, LabelKind::E));
    assert!(rt; has(state, &first(), 1, LabelKind::E));
    assert!(rt; !state.is_closed(&first()));
    assert!(rt; state.over(&first()).is_none());
    assert!(rt; !state.is_over(&first()));
}

#[test]
fn a_state_begins_with_the_equations(rt: HostRuntime) {
    let alloc = rt.alloc();
    let state = opened(&rt, alloc, b"(RULES f(a) == b f(a) == c)");
    is_new(&rt, &state);
    has_equations(&rt, &state);
    drop(state);
}

// The first process turns the node into a rule.
fn orient_first(rt: &impl Abort, alloc: Global, state: &mut State, n: u16) {
    let answer = orient(rt, alloc, state, &first(), n);
    assert_eq!(rt; answer, Applied::Done);
}

// The first process forks at the node.
fn fork_first(rt: &impl Abort, alloc: Global, state: &mut State, n: u16) {
    let answer = fork(rt, alloc, state, &first(), n);
    assert_eq!(rt; answer, Applied::Done);
}

// The pair f(a) = a, of the overlap of the rule of node 0 with itself.
fn bare(rt: &impl Abort, alloc: Global) -> Vec<Deduced> {
    overlap(rt, alloc, forth(0), forth(0), applied_and_bare(rt, alloc))
}

// The first process does not join f(a) and a, which becomes its equation.
fn leave_unjoined(rt: &impl Abort, alloc: Global, state: &mut State) {
    let pairs = bare(rt, alloc);
    let answer = unjoined(rt, alloc, state, &first(), pairs.as_slice());
    assert_eq!(rt; answer, Applied::Done);
    assert!(rt; has(state, &first(), 1, LabelKind::E));
    assert!(rt; is_pair(state, &applied_and_bare(rt, alloc), 1));
    assert!(rt; !state.is_done(&first(), forth(0), forth(0)));
    assert_eq!(rt; state.commits(), 2);
}

// The first process has nodes 0 and 1, and one rule, of node 0.
fn lends_its_lists(rt: &impl Abort, state: &State) {
    let held = state.held(&first()).expect(rt, "it is kept");
    assert!(rt; held.len() == 2 && held[1].0 == 1);
    let rules = state.rules(&first()).expect(rt, "it is kept");
    assert!(rt; rules.len() == 1 && rules[0].node == 0 && rules[0].dir == 0);
}

// The first process sees node 1 as an equation and node 0 as a rule, which is its one constraint.
fn sees_both(rt: &impl Abort, state: &State) {
    let view = state.view_of(&first()).expect(rt, "memory");
    assert!(rt; view.equations.items() == [NodeId(1)].as_slice());
    assert!(rt; view.rules.items() == [forth(0)].as_slice());
    assert!(rt; view.constraints.items() == [forth(0)].as_slice());
}

#[test]
fn an_overlap_that_does_not_join_becomes_an_equation(rt: HostRuntime) {
    let alloc = rt.alloc();
    let mut state = opened(&rt, alloc, b"(VAR x)(RULES f(f(x)) == a)");
    orient_first(&rt, alloc, &mut state, 0);
    leave_unjoined(&rt, alloc, &mut state);
    lends_its_lists(&rt, &state);
    sees_both(&rt, &state);
    drop(state);
}

// The proposal to overlap the rule of node 0 with itself names both children.
fn names_both(rt: &impl Abort, alloc: Global, state: &State) {
    let names = acts_on(rt, alloc, state, forth(0), bare(rt, alloc));
    assert!(rt; names.as_slice() == [left(), right()].as_slice());
    assert!(rt; !is_dropped(rt, alloc, state, forth(0), bare(rt, alloc)));
}

// It has its effect on both.
fn apply_to_both(rt: &impl Abort, alloc: Global, state: &mut State) {
    let answer = apply(rt, alloc, state, forth(0), bare(rt, alloc));
    assert_eq!(rt; answer, Applied::Done);
    assert!(rt; has(state, &left(), 2, LabelKind::E));
    assert!(rt; has(state, &right(), 2, LabelKind::E));
    assert_eq!(rt; state.commits(), 3);
}

// Nothing is left for it to do.
fn names_none(rt: &impl Abort, alloc: Global, state: &State) {
    let names = acts_on(rt, alloc, state, forth(0), bare(rt, alloc));
    assert!(rt; names.is_empty());
    assert!(rt; is_dropped(rt, alloc, state, forth(0), bare(rt, alloc)));
}

#[test]
fn a_proposal_acts_on_both_children_once(rt: HostRuntime) {
    let alloc = rt.alloc();
    let mut state = opened(&rt, alloc, b"(VAR x)(RULES f(f(x)) == a b == c)");
    orient_first(&rt, alloc, &mut state, 0);
    fork_first(&rt, alloc, &mut state, 1);
    names_both(&rt, alloc, &state);
    apply_to_both(&rt, alloc, &mut state);
    names_none(&rt, alloc, &state);
    drop(state);
}
