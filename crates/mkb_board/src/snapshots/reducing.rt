// What a Reduce reads.
ghost use Rattle.std.specs.Prelude.{◌≡◌, ◌<◌, ◌≤◌, ◌^◌, ◌++◌, ◌||◌, ◌∷◌, [], filter, IfOk, OnOk, length};
ghost use Rattle.std.specs.List.{flat_map};
ghost use Rattle.kb_jobs.specs.Taken.{IsTakenReduce};
ghost use Rattle.mkb_model.specs.Plain.{other};
ghost use Rattle.mkb_model.specs.Invariants.{FactsHold};
ghost use Rattle.mkb_rules.specs.Roles.{has_rule, roles_of};
ghost use Rattle.mkb_agenda.specs.Open.{is_open_to};
ghost use Rattle.mkb_board.specs.Shelf.{HoldsRead};
ghost use Rattle.mkb_board.specs.Snapshots.{AreWithin, IsWholeReduce, open_rules, unknown_on, with_names};

use super::named::{named_rules, rules_of};
use crate::shelf::Shelf;
use kb_jobs::ReduceSnapshot;
use kb_label::Process;
use kb_node::NodeId;
use kb_term::{MAX_NODES, Memory, RuleRef};
use mkb_agenda::{OpenTo, leads_to, roles_by};
use mkb_rules::{Roles, State};
use std::alloc::{AllocError, Global};

/// The pair of the node, the rules of the process in other nodes to which some side of the node is open, and what is unknown of them.
#[tactic(auto, using(crate::proofs::Viewed::others_there, crate::proofs::Viewed::others_order))]
pub(crate) fn reduce_snapshot(
    alloc: Global,
    state: &State,
    shelf: &mut Shelf,
    process: Process,
    node: NodeId,
) -> Result<ReduceSnapshot, Memory>
    requires there { node.0 < length state.now.nodes }
    requires facts { FactsHold state.now }
    requires shelf { HoldsRead state.now shelf.old }
    ensures shelf { HoldsRead state.now shelf.new }
    ensures process { IfOk result (λ s. s.process ≡ process) }
    ensures node { IfOk result (λ s. s.node ≡ node) }
    ensures taken { IfOk result (IsTakenReduce state.now) }
    ensures whole { IfOk result IsWholeReduce }
{
    let roles = roles_by(state, state.roles(&process), &process, node);
    let pair = shelf.pair_at(state, node)?;
    let names = open_rules(alloc, state, &process, roles, node)?;
    let unknown = unknown(alloc, state, node, names.as_slice())?;
    let rules = named_rules(alloc, state, shelf, names)?;
    Ok(ReduceSnapshot {
        process,
        node,
        pair,
        rules,
        any_first: is_any(roles, 0),
        any_second: is_any(roles, 1),
        unknown,
    })
}

// The rules of the process in other nodes to which some side of the node is open; the process has the node in these roles.
fn open_rules(
    alloc: Global,
    state: &State,
    p: &Process,
    roles: Roles,
    n: NodeId,
) -> Result<Vec<RuleRef>, Memory>
    requires roles { roles ≡ roles_of state.now p.now n.0 }
    ensures names { IfOk result (λ names. names.items ≡ open_rules state.now p.now n.0) }
    ensures few { IfOk result (λ names. length names.items < 2 ^ 32) }
{
    let names = listed_open(alloc, state, p, roles, n)?;
    // Each node gives at most two rules.
    let count = state.nodes().len();
    prove!(count <= MAX_NODES as u32);
    Ok(names)
}

// The same, however many they are.
fn listed_open(
    alloc: Global,
    state: &State,
    p: &Process,
    roles: Roles,
    n: NodeId,
) -> Result<Vec<RuleRef>, Memory>
    requires { roles ≡ roles_of state.now p.now n.0 }
    ensures { IfOk result (λ names. names.items ≡ open_rules state.now p.now n.0) }
{
    if let Some(rules) = state.rules(p) {
        return Ok(open_among(alloc, state, roles, n, rules)?);
    }
    let rules = rules_of(alloc, state, p)?;
    Ok(open_among(alloc, state, roles, n, rules.as_slice())?)
}

// Those of the rules to which some side of the node is open, where a process has it in these roles.
fn open_among(
    alloc: Global,
    state: &State,
    roles: Roles,
    n: NodeId,
    rules: &[RuleRef],
) -> Result<Vec<RuleRef>, AllocError>
    ensures { IfOk result (λ kept. kept.items ≡ filter (is_open_to state.now roles n.0) rules.now) }
{
    let known = state.known_on(n);
    let node = OpenTo {
        known: &known,
        roles,
    };
    let mut kept = Vec::with_capacity(alloc, rules.len())?;
    for i in 0..rules.len() {
        if node.is_open(rules[i]) {
            kept.push(rules[i])?;
        }
    }
    Ok(kept)
}

// Whether any redex may be rewritten on the side, where a process has the node in these roles.
fn is_any(roles: Roles, side: u8) -> bool
    ensures { result ≡ (roles.equation || has_rule roles (other side)) }
{
    roles.equation || leads_to(roles, side)
}

// Both sides with the numbers of the rules of which nothing is known on them.
fn unknown(
    alloc: Global,
    state: &State,
    n: NodeId,
    names: &[RuleRef],
) -> Result<Vec<(u8, u32)>, AllocError>
    requires { length names.now < 2 ^ 32 }
    ensures names { IfOk result (λ us. with_names names.now us.items ≡ flat_map (unknown_on state.now n.0 names.now) (0 ∷ 1 ∷ [])) }
    ensures within { IfOk result (λ us. AreWithin (length names.now) us.items) }
{
    let mut us = Vec::with_capacity(alloc, 2 * names.len())?;
    push_unknown(&mut us, state, n, 0, names)?;
    push_unknown(&mut us, state, n, 1, names)?;
    Ok(us)
}

// Adds the side with the number of each rule of which nothing is known on it.
fn push_unknown(
    us: &mut Vec<(u8, u32)>,
    state: &State,
    n: NodeId,
    side: u8,
    names: &[RuleRef],
) -> Result<(), AllocError>
    requires few { length names.now < 2 ^ 32 }
    requires side { side ≤ 1 }
    requires within { AreWithin (length names.now) us.old.items }
    ensures names { OnOk result (with_names names.now us.new.items ≡ with_names names.now us.old.items ++ unknown_on state.now n.0 names.now side) }
    ensures within { OnOk result (AreWithin (length names.now) us.new.items) }
{
    let known = state.known_on(n);
    for i in 0..names.len() {
        if known.side(side, names[i]).is_none() {
            us.push((side, i as u32))?;
        }
    }
    Ok(())
}
