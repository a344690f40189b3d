// Copies of the rules that a process has on the board.
ghost use Rattle.std.specs.Prelude.{◌≡◌, ◌<◌, ◌++◌, Some, All, IfOk, OnOk, length, map};
ghost use Rattle.mkb_model.specs.Plain.{pair_at, rules_at, rules_of};
ghost use Rattle.mkb_model.specs.Proposals.{named_rules};
ghost use Rattle.kb_jobs.specs.Rules.{listed};
ghost use Rattle.mkb_board.specs.Shelf.{HoldsRead};
ghost use Rattle.mkb_rules.specs.Named.{IsRuleThere};

use crate::holding::{held_nodes, rules_among};
use crate::shelf::Shelf;
use kb_jobs::{NamedRules, SharedRules};
use kb_label::Process;
use kb_node::NodeId;
use kb_term::{Memory, Pair, Rule, RuleRef};
use mkb_rules::State;
use std::alloc::{AllocError, Global};

/// The pair of a node.
pub(crate) fn pair_at(state: &State, n: NodeId) -> Result<Pair, Memory>
    requires { n.0 < length state.now.nodes }
    ensures { IfOk result (λ pair. pair_at state.now n.0 ≡ Some pair) }
{
    state.nodes().pair(n)
}

/// The rules with the names.
fn rules_at(
    alloc: Global,
    state: &State,
    shelf: &mut Shelf,
    names: &[RuleRef],
) -> Result<Vec<Rule>, Memory>
    requires there { All (IsRuleThere state.now) names.now }
    requires shelf { HoldsRead state.now shelf.old }
    ensures shelf { HoldsRead state.now shelf.new }
    ensures rules { IfOk result (λ rules. rules.items ≡ rules_at state.now names.now) }
    ensures as_many { IfOk result (λ rules. length rules.items ≡ length names.now) }
{
    let mut rules = Vec::with_capacity(alloc, names.len())?;
    push_rules_at(state, shelf, &mut rules, names)?;
    Ok(rules)
}

/// Adds the rules with the names.
pub(crate) fn push_rules_at(
    state: &State,
    shelf: &mut Shelf,
    rules: &mut Vec<Rule>,
    names: &[RuleRef],
) -> Result<(), Memory>
    requires there { All (IsRuleThere state.now) names.now }
    requires shelf { HoldsRead state.now shelf.old }
    ensures shelf { HoldsRead state.now shelf.new }
    ensures rules { OnOk result (rules.new.items ≡ rules.old.items ++ rules_at state.now names.now) }
{
    for i in 0..names.len() {
        rules.push(shelf.rule_at(state, names[i])?)?;
    }
    Ok(())
}

/// The rules with the names, and their names. Where the list before has the same names, both share its rules.
#[tactic(auto, using(crate::proofs::Viewed::named_there, crate::proofs::Kept::at_there, crate::proofs::Kept::listed_at, crate::proofs::Kept::as_many_at))]
pub(crate) fn named_rules(
    alloc: Global,
    state: &State,
    shelf: &mut Shelf,
    names: Vec<RuleRef>,
) -> Result<NamedRules, Memory>
    requires there { All (IsRuleThere state.now) names.items }
    requires shelf { HoldsRead state.now shelf.old }
    ensures shelf { HoldsRead state.now shelf.new }
    ensures names { IfOk result (λ rules. rules.names.items ≡ names.items) }
    ensures rules { IfOk result (λ rules. listed rules ≡ named_rules state.now names.items) }
    ensures as_many { IfOk result (λ rules. length rules.names.items ≡ length rules.rules) }
{
    if let Some(rules) = shelf.last_of(names.as_slice())? {
        return Ok(NamedRules { names, rules });
    }
    let rules = rules_at(alloc, state, shelf, names.as_slice())?;
    let rules = SharedRules::new(alloc, rules)?;
    shelf.keep_last(names.as_slice(), &rules).ok();
    Ok(NamedRules { names, rules })
}

/// The rules of the process, by node, then direction.
pub(crate) fn rules_of(
    alloc: Global,
    state: &State,
    p: &Process,
) -> Result<Vec<RuleRef>, AllocError>
    ensures { IfOk result (λ rules. rules.items ≡ rules_of state.now p.now) }
{
    let held = held_nodes(alloc, state, p)?;
    rules_among(alloc, state, p, held.as_slice())
}
