// What a Close reads.
ghost use Rattle.std.specs.Prelude.{◌≡◌, ◌<◌, All, IfOk, length, map};
ghost use Rattle.kb_node.specs.declared.node.NodeId.{NodeId as Numbered};
ghost use Rattle.kb_term.specs.View.{equations_of_list};
ghost use Rattle.mkb_model.specs.Plain.{equations_at};
ghost use Rattle.kb_jobs.specs.Closing.{equations_of};
ghost use Rattle.kb_jobs.specs.Taken.{IsTakenClose};
ghost use Rattle.mkb_board.specs.Shelf.{HoldsRead};

use super::named::{named_rules, pair_at};
use crate::holding::{equations_among, held_nodes, rules_among};
use crate::shelf::Shelf;
use kb_jobs::CloseSnapshot;
use kb_label::Process;
use kb_node::NodeId;
use kb_term::{Memory, Pair, Term};
use mkb_rules::State;
use std::alloc::{AllocError, Global};

/// The rules and the equations of the process, and the input equations.
#[tactic(auto, using(crate::proofs::Viewed::rules_there, crate::proofs::Viewed::equations_there))]
pub(crate) fn close_snapshot(
    alloc: Global,
    state: &State,
    shelf: &mut Shelf,
    process: Process,
) -> Result<CloseSnapshot, Memory>
    requires shelf { HoldsRead state.now shelf.old }
    ensures shelf { HoldsRead state.now shelf.new }
    ensures process { IfOk result (λ s. s.process ≡ process) }
    ensures taken { IfOk result (IsTakenClose state.now) }
    ensures as_many { IfOk result (λ s. length s.rules.names.items ≡ length s.rules.rules) }
{
    let held = held_nodes(alloc, state, &process)?;
    let names = rules_among(alloc, state, &process, held.as_slice())?;
    let nodes = equations_among(alloc, state, &process, held.as_slice())?;
    let rules = named_rules(alloc, state, shelf, names)?;
    let equations = equations_at(alloc, state, nodes.as_slice())?;
    let inputs = copied(alloc, state.problem().equations())?;
    Ok(CloseSnapshot {
        process,
        rules,
        equations,
        inputs,
    })
}

// The pairs of the nodes.
fn equations_at(alloc: Global, state: &State, nodes: &[NodeId]) -> Result<Vec<Pair>, Memory>
    requires { All (λ (n : Numbered). n.0 < length state.now.nodes) nodes.now }
    ensures { IfOk result (λ pairs. equations_of pairs.items ≡ equations_at state.now (map (λ (n : Numbered). n.0) nodes.now)) }
{
    let mut pairs = Vec::new(alloc);
    for i in 0..nodes.len() {
        pairs.push(pair_at(state, nodes[i])?)?;
    }
    Ok(pairs)
}

// The equations once more.
fn copied(alloc: Global, equations: &[(Term, Term)]) -> Result<Vec<(Term, Term)>, AllocError>
    ensures { IfOk result (λ copy. equations_of_list copy.items ≡ equations_of_list equations.now) }
{
    let mut copy = Vec::new(alloc);
    for i in 0..equations.len() {
        let (left, right) = &equations[i];
        copy.push((left.clone()?, right.clone()?))?;
    }
    Ok(copy)
}
