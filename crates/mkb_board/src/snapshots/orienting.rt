// What an Orient reads.
ghost use Rattle.std.specs.Prelude.{◌≡◌, ◌<◌, ◌++◌, ◌∷◌, [], All, IfOk, OnOk, IsSome, filter, length};
ghost use Rattle.mkb_model.specs.Plain.{certificate_of, constraints_of, directions, is_constraint, rules_at};
ghost use Rattle.kb_jobs.specs.Taken.{IsTakenOrient};
ghost use Rattle.mkb_rules.specs.Constrained.{AreConstrained};
ghost use Rattle.mkb_rules.specs.Named.{IsRuleThere, Lives};
ghost use Rattle.mkb_board.specs.Shelf.{HoldsRead};

use super::named::push_rules_at;
use crate::choosing::node_count;
use crate::shelf::Shelf;
use kb_jobs::OrientSnapshot;
use kb_label::Process;
use kb_node::{LabelKind, NodeId};
use kb_term::{Memory, Rule, RuleRef};
use mkb_rules::State;
use std::alloc::{AllocError, Global};

/// The run's family of orders, the signature, the order in force, and the rule of each direction of the node with the constraints of the process behind it.
#[tactic(auto, using(crate::proofs::Viewed::constraints_there))]
pub(crate) fn orient_snapshot(
    alloc: Global,
    state: &State,
    shelf: &mut Shelf,
    process: Process,
    node: NodeId,
) -> Result<OrientSnapshot, Memory>
    requires there { node.0 < length state.now.nodes }
    requires lives { Lives state.now process }
    requires ordered { IsSome (certificate_of state.now process) }
    requires shelf { HoldsRead state.now shelf.old }
    ensures shelf { HoldsRead state.now shelf.new }
    ensures process { IfOk result (λ s. s.process ≡ process) }
    ensures node { IfOk result (λ s. s.node ≡ node) }
    ensures taken { IfOk result (IsTakenOrient state.now) }
{
    let constraints = constraints_of(alloc, state, &process)?;
    let constraints = constraints.as_slice();
    let family = state.settings().family;
    let in_force = state.certificate(&process).clone()?;
    let signature = state.problem().signature().clone()?;
    let forth = rules_towards(
        alloc,
        state,
        shelf,
        constraints,
        RuleRef {
            node: node.0,
            dir: 0,
        },
    )?;
    let back = rules_towards(
        alloc,
        state,
        shelf,
        constraints,
        RuleRef {
            node: node.0,
            dir: 1,
        },
    )?;
    Ok(OrientSnapshot {
        process,
        node,
        family,
        signature,
        in_force,
        forth,
        back,
    })
}

// The constraints of the process, by node, then direction.
fn constraints_of(alloc: Global, state: &State, p: &Process) -> Result<Vec<RuleRef>, AllocError>
    ensures { IfOk result (λ constraints. constraints.items ≡ constraints_of state.now p.now) }
{
    match state.constrained() {
        Some(constrained) => constraints_among(alloc, state, p, constrained),
        None => constraints_of_all(alloc, state, p),
    }
}

// Those in these nodes; in each other node nobody has one.
fn constraints_among(
    alloc: Global,
    state: &State,
    p: &Process,
    constrained: &[NodeId],
) -> Result<Vec<RuleRef>, AllocError>
    requires { AreConstrained state.now.nodes constrained.now }
    ensures { IfOk result (λ constraints. constraints.items ≡ constraints_of state.now p.now) }
{
    let mut constraints = Vec::new(alloc);
    for i in 0..constrained.len() {
        push_constraints(&mut constraints, state, p, constrained[i])?;
    }
    Ok(constraints)
}

// Those in all nodes.
fn constraints_of_all(alloc: Global, state: &State, p: &Process) -> Result<Vec<RuleRef>, AllocError>
    ensures { IfOk result (λ constraints. constraints.items ≡ constraints_of state.now p.now) }
{
    let mut constraints = Vec::new(alloc);
    for n in 0..node_count(state) {
        push_constraints(&mut constraints, state, p, NodeId(n as u16))?;
    }
    Ok(constraints)
}

// Adds the constraints of the process in the node, in both directions.
fn push_constraints(
    constraints: &mut Vec<RuleRef>,
    state: &State,
    p: &Process,
    n: NodeId,
) -> Result<(), AllocError>
    requires { n.0 < length state.now.nodes }
    ensures { OnOk result (constraints.new.items ≡ constraints.old.items ++ filter (is_constraint state.now p.now) (directions n.0)) }
{
    push_constraint(constraints, state, p, RuleRef { node: n.0, dir: 0 })?;
    push_constraint(constraints, state, p, RuleRef { node: n.0, dir: 1 })
}

// Adds the rule, where it is a constraint of the process.
fn push_constraint(
    constraints: &mut Vec<RuleRef>,
    state: &State,
    p: &Process,
    rule: RuleRef,
) -> Result<(), AllocError>
    requires { rule.node < length state.now.nodes }
    ensures { OnOk result (constraints.new.items ≡ constraints.old.items ++ filter (is_constraint state.now p.now) (rule ∷ [])) }
{
    let kind = if rule.dir == 0 {
        LabelKind::C0
    } else {
        LabelKind::C1
    };
    if state.has_label(p, NodeId(rule.node), kind) {
        constraints.push(rule)?;
    }
    Ok(())
}

// A rule, and the rules with the names behind it.
#[tactic(auto, using(crate::proofs::Viewed::rules_before))]
fn rules_towards(
    alloc: Global,
    state: &State,
    shelf: &mut Shelf,
    names: &[RuleRef],
    first: RuleRef,
) -> Result<Vec<Rule>, Memory>
    requires names { All (IsRuleThere state.now) names.now }
    requires first { IsRuleThere state.now first }
    requires shelf { HoldsRead state.now shelf.old }
    ensures shelf { HoldsRead state.now shelf.new }
    ensures rules { IfOk result (λ rules. rules.items ≡ rules_at state.now (first ∷ names.now)) }
{
    let mut rules = Vec::with_capacity(alloc, names.len() + 1)?;
    rules.push(shelf.rule_at(state, first)?)?;
    push_rules_at(state, shelf, &mut rules, names)?;
    Ok(rules)
}
