// A state of a problem, and each call of it, with ample memory: what the call wants is tested first.
ghost use Rattle.kb_term.specs.Signature.{IsWithinLimits};
ghost use Rattle.mkb_model.specs.Plain.{Plain};
ghost use Rattle.mkb_rules.specs.Applicable.{IsApplicable};
ghost use Rattle.mkb_rules.specs.Applying.{HasBudget};
ghost use Rattle.mkb_rules.specs.Named.{IsThere, Lives};

use crate::terms::above;
use kb_label::{Living, Process};
use kb_node::{Deduced, LabelKind, NodeId};
use kb_syntax::{parse_problem, spelled_problems_are_within_limits};
use kb_term::{Pair, Problem, RuleRef};
use mkb_model::{DeducedList, Proposed, Settings};
use mkb_rules::{Applied, State};
use std::alloc::Global;
use std::mem::drop;
use std::process::Abort;

/// The problem that the text spells.
pub(crate) fn problem(rt: &impl Abort, alloc: Global, text: &[u8]) -> Problem
    ensures { IsWithinLimits result }
{
    spelled_problems_are_within_limits();
    match parse_problem(alloc, text) {
        Ok(problem) => problem,
        Err(_) => panic!(rt; "no problem"),
    }
}

/// The state of the problem before any commit, with a budget of 100 commits.
pub(crate) fn opened(rt: &impl Abort, alloc: Global, text: &[u8]) -> State {
    let problem = problem(rt, alloc, text);
    State::start(alloc, problem, Settings::stated(100)).expect(rt, "memory")
}

/// There is budget for one commit more.
pub(crate) fn ready(rt: &impl Abort, state: &State)
    ensures { HasBudget state.now }
{
    assert!(rt; state.commits() < state.settings().budget);
}

/// There is a node with this number.
pub(crate) fn there(rt: &impl Abort, state: &State, n: u16)
    ensures { IsThere state.now n }
{
    assert!(rt; u32::from(n) < state.nodes().len());
}

/// The process lives.
pub(crate) fn living(rt: &impl Abort, state: &State, p: &Process)
    ensures { Lives state.now p.now }
{
    assert!(rt; state.log().is_living(p));
}

/// The process turns the node into the rule from side 0 to side 1, with symbol 0 above symbol 1.
pub(crate) fn orient(
    rt: &impl Abort,
    alloc: Global,
    state: &mut State,
    p: &Process,
    n: u16,
) -> Applied {
    let order = above(rt, alloc, 0, 1);
    ready(rt, state);
    there(rt, state, n);
    living(rt, state, p);
    state
        .orient_one(alloc, p, NodeId(n), 0, &order)
        .expect(rt, "memory")
}

/// The process forks at the node: the left child has symbol 0 above symbol 1, the right one has it below.
pub(crate) fn fork(
    rt: &impl Abort,
    alloc: Global,
    state: &mut State,
    p: &Process,
    n: u16,
) -> Applied {
    let order0 = above(rt, alloc, 0, 1);
    let order1 = above(rt, alloc, 1, 0);
    ready(rt, state);
    there(rt, state, n);
    living(rt, state, p);
    state
        .orient_both(alloc, p, NodeId(n), &order0, &order1)
        .expect(rt, "memory")
}

/// The pairs that the process does not join.
pub(crate) fn unjoined(
    rt: &impl Abort,
    alloc: Global,
    state: &mut State,
    p: &Process,
    pairs: &[Deduced],
) -> Applied {
    ready(rt, state);
    living(rt, state, p);
    state.unjoined(alloc, p, pairs).expect(rt, "memory")
}

// The proposal to deduce these pairs of overlaps of the rule with itself.
fn proposal(rule: RuleRef, pairs: Vec<Deduced>) -> Proposed
    ensures { (b : Plain) → IsThere b rule.node → IsApplicable b result }
{
    Proposed::Deduce {
        a: rule,
        b: rule,
        pairs: DeducedList::new(pairs),
    }
}

/// The proposal to deduce these pairs of overlaps of the rule with itself has its effect.
pub(crate) fn apply(
    rt: &impl Abort,
    alloc: Global,
    state: &mut State,
    rule: RuleRef,
    pairs: Vec<Deduced>,
) -> Applied {
    let deduced = proposal(rule, pairs);
    ready(rt, state);
    there(rt, state, rule.node);
    let made = state.apply(alloc, &deduced).expect(rt, "memory");
    drop(deduced);
    made.applied
}

/// The processes on which that proposal acts.
pub(crate) fn acts_on(
    rt: &impl Abort,
    alloc: Global,
    state: &State,
    rule: RuleRef,
    pairs: Vec<Deduced>,
) -> Vec<Process> {
    let deduced = proposal(rule, pairs);
    there(rt, state, rule.node);
    let names = state.effect_label(alloc, &deduced).expect(rt, "memory");
    drop(deduced);
    names
}

/// Whether nothing is left for that proposal to act on.
pub(crate) fn is_dropped(
    rt: &impl Abort,
    alloc: Global,
    state: &State,
    rule: RuleRef,
    pairs: Vec<Deduced>,
) -> bool {
    let deduced = proposal(rule, pairs);
    there(rt, state, rule.node);
    let is_dropped = state.is_dropped(alloc, &deduced).expect(rt, "memory");
    drop(deduced);
    is_dropped
}

/// Whether the process has the node so.
pub(crate) fn has(state: &State, p: &Process, n: u16, kind: LabelKind) -> bool {
    u32::from(n) < state.nodes().len() && state.has_label(p, NodeId(n), kind)
}

/// Whether the node has the pair.
pub(crate) fn is_pair(state: &State, pair: &Pair, n: u16) -> bool {
    state.nodes().find(pair) == Some(NodeId(n))
}
