// Which nodes a process has.
ghost use Rattle.std.specs.Prelude.{◌≡◌, ◌++◌, ◌∷◌, [], length, map, if◌then◌else◌, IfOk, OnOk};
ghost use Rattle.kb_node.specs.declared.node.NodeId.{NodeId as Numbered};
ghost use Rattle.mkb_model.specs.Plain.{equations_of, rules_of};
ghost use Rattle.mkb_rules.specs.Sizes.{AreAlive};
ghost use Rattle.mkb_rules.specs.Roles.{held_of};

use crate::choosing::node_count;
use kb_label::Process;
use kb_node::NodeId;
use kb_term::RuleRef;
use mkb_agenda::roles_by;
use mkb_rules::{Roles, State, push_held, push_rules};
use std::alloc::{AllocError, Global};

/// The nodes that the process has as an equation or as a rule, in their order.
pub(crate) fn held_nodes(
    alloc: Global,
    state: &State,
    p: &Process,
) -> Result<Vec<NodeId>, AllocError>
    ensures { IfOk result (λ held. map (λ (n : Numbered). n.0) held.items ≡ held_of state.now p.now) }
{
    match state.held(p) {
        Some(held) => Vec::from_slice(alloc, held),
        None => held_by_roles(alloc, state, p),
    }
}

// Those of the nodes in use that the process has.
fn held_by_roles(alloc: Global, state: &State, p: &Process) -> Result<Vec<NodeId>, AllocError>
    ensures { IfOk result (λ held. map (λ (n : Numbered). n.0) held.items ≡ held_of state.now p.now) }
{
    match state.alive() {
        Some(alive) => held_among(alloc, state, p, alive),
        None => held_of_all(alloc, state, p),
    }
}

// Those of these nodes that the process has; each other node is dead.
fn held_among(
    alloc: Global,
    state: &State,
    p: &Process,
    alive: &[NodeId],
) -> Result<Vec<NodeId>, AllocError>
    requires { AreAlive state.now.nodes alive.now }
    ensures { IfOk result (λ held. map (λ (n : Numbered). n.0) held.items ≡ held_of state.now p.now) }
{
    let kept = state.roles(p);
    let mut held = Vec::new(alloc);
    for i in 0..alive.len() {
        let roles = roles_by(state, kept, p, alive[i]);
        push_held(&mut held, alive[i], roles)?;
    }
    Ok(held)
}

// Those of all nodes that the process has.
fn held_of_all(alloc: Global, state: &State, p: &Process) -> Result<Vec<NodeId>, AllocError>
    ensures { IfOk result (λ held. map (λ (n : Numbered). n.0) held.items ≡ held_of state.now p.now) }
{
    let kept = state.roles(p);
    let mut held = Vec::new(alloc);
    for n in 0..node_count(state) {
        let n = NodeId(n as u16);
        let roles = roles_by(state, kept, p, n);
        push_held(&mut held, n, roles)?;
    }
    Ok(held)
}

/// The rules of the process, by node, then direction: those in the nodes that it has.
pub(crate) fn rules_among(
    alloc: Global,
    state: &State,
    p: &Process,
    held: &[NodeId],
) -> Result<Vec<RuleRef>, AllocError>
    requires { map (λ (n : Numbered). n.0) held.now ≡ held_of state.now p.now }
    ensures { IfOk result (λ rules. rules.items ≡ rules_of state.now p.now) }
{
    let kept = state.roles(p);
    let mut rules = Vec::new(alloc);
    for i in 0..held.len() {
        let roles = roles_by(state, kept, p, held[i]);
        push_rules(&mut rules, held[i].0, roles)?;
    }
    Ok(rules)
}

/// The equations of the process, in their order: those of the nodes that it has.
pub(crate) fn equations_among(
    alloc: Global,
    state: &State,
    p: &Process,
    held: &[NodeId],
) -> Result<Vec<NodeId>, AllocError>
    requires { map (λ (n : Numbered). n.0) held.now ≡ held_of state.now p.now }
    ensures { IfOk result (λ equations. map (λ (n : Numbered). n.0) equations.items ≡ equations_of state.now p.now) }
{
    let kept = state.roles(p);
    let mut equations = Vec::new(alloc);
    for i in 0..held.len() {
        let roles = roles_by(state, kept, p, held[i]);
        push_equation(&mut equations, held[i], roles)?;
    }
    Ok(equations)
}

// Adds the node, where whoever has it so has it as an equation.
fn push_equation(equations: &mut Vec<NodeId>, n: NodeId, roles: Roles) -> Result<(), AllocError>
    ensures { OnOk result (equations.new.items ≡ equations.old.items ++ (if roles.equation then n ∷ [] else [])) }
{
    if roles.equation {
        equations.push(n)?;
    }
    Ok(())
}
