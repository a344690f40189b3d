// The index of the rules that some process has.
ghost use Rattle.std.specs.Prelude.{ℕ, ◌≡◌, ◌<◌, ◌^◌, ◌↔◌, false, get_or, length, IfOk, IfSome, IsTrue, OnOk};
ghost use Rattle.mkb_model.specs.Plain.{Plain};
ghost use Rattle.mkb_moves.specs.Changes.{is_in_use as is_used_on};
ghost use Rattle.mkb_rules.specs.Named.{IsThere, IsRuleThere};
ghost use Rattle.mkb_agenda.specs.Following.{HasNodesOf, IsCommitOn};
ghost use Rattle.rule_index.specs.Index.{IsThere as IsKeyThere};
ghost use Rattle.rules_in_use.specs.InUse.{key_of, HoldsLeftSides, IsIndexOf, IsPutRight, IsPutRightAt};

use kb_label::Labels;
use kb_node::{LabelKind, NodeId};
use kb_term::{Memory, RuleRef, rule_from};
use mkb_agenda::Commit;
use mkb_model::Proposed;
use mkb_rules::{Applied, State};
use rule_index::RuleIndex;
use std::alloc::{AllocError, Global};
use std::marker::Model;

/// The rules that some process has on a state, each under the key `2 * node + dir`, found by the terms that their left sides fit.
/// Contracts see the index.
#[derive(Drop)]
pub struct RulesInUse {
    alloc: Global,
    index: RuleIndex,
    told: Vec<bool>,
}

impl Model for RulesInUse {
    ghost use Rattle.std.specs.Coded.{codes};
    ghost use Rattle.rule_index.specs.contracts.branch.Branch as branch;
    ghost use Rattle.rule_index.specs.declared.index.RuleIndex.{RuleIndex};
    ghost use Rattle.rules_in_use.specs.InUse.{TellsKeys};

    ghost Value = { RuleIndex };

    ghost coded = { Prim.hlevel (codes, branch.the_row.coded) };

    ghost view = { λ s. s.index };

    ghost invariant = { λ s. TellsKeys s.index s.told.items };
}

impl RulesInUse {
    /// The index of a state, made from nothing. It goes over the nodes.
    ///
    /// # Errors
    ///
    /// Want of memory.
    pub fn of(alloc: Global, state: &State) -> Result<RulesInUse, Memory>
        ensures { IfOk result (IsIndexOf state.now) }
    {
        let mut rules = RulesInUse {
            alloc,
            index: RuleIndex::new(alloc),
            told: Vec::new(alloc),
        };
        for n in 0..state.nodes().len() {
            rules.look_at_node(state, NodeId(n as u16))?;
        }
        Ok(rules)
    }

    /// The index.
    pub fn index(&self) -> &RuleIndex
        ensures { result.now ≡ self.now }
    {
        &self.index
    }

    /// Makes the index of the board before a commit that of the state after it. It looks again at those rules alone that the commit may
    /// have changed, at most four.
    ///
    /// # Errors
    ///
    /// Want of memory. The index is then of no board, and is to be made anew.
    pub fn follow(&mut self, state: &State, commit: &Commit) -> Result<(), Memory>
        requires nodes { HasNodesOf state.now commit.now.proposal.now }
        requires target { commit.now.applied ≡ Applied.Done → IfSome commit.now.target (λ m. IsThere state.now m.0) }
        ensures { OnOk result ((b : Plain) → IsCommitOn b commit.now state.now → IsIndexOf b self.old → IsIndexOf state.now self.new) }
    {
        match (commit.applied, commit.proposal) {
            (Applied::Over(_), _) => Ok(()),
            (Applied::Done, Proposed::Rewrite { node, .. }) => {
                self.look_at_node(state, *node)?;
                match commit.target {
                    Some(target) => self.look_at_node(state, target),
                    None => Ok(()),
                }
            }
            (Applied::Done, Proposed::One { node, .. }) => self.look_at_node(state, *node),
            (Applied::Done, Proposed::Both { node, .. }) => self.look_at_node(state, *node),
            _ => Ok(()),
        }
    }

    // Both rules of the node.
    fn look_at_node(&mut self, state: &State, n: NodeId) -> Result<(), Memory>
        requires { IsThere state.now n.0 }
        ensures { OnOk result (HoldsLeftSides state.now self.old → IsPutRightAt state.now n.0 self.old self.new) }
    {
        self.look_at(state, RuleRef { node: n.0, dir: 0 })?;
        self.look_at(state, RuleRef { node: n.0, dir: 1 })
    }

    // Puts the rule in, or takes it out, where some process has it or none has.
    fn look_at(&mut self, state: &State, rule: RuleRef) -> Result<(), Memory>
        requires { IsRuleThere state.now rule }
        ensures { OnOk result (HoldsLeftSides state.now self.old → IsPutRight state.now rule self.old self.new) }
    {
        let key = 2 * rule.node as usize + rule.dir as usize;
        let is_used = is_in_use(state, rule);
        if is_used == self.has(key) {
            return Ok(());
        }
        if is_used {
            self.put_in(state, rule, key)
        } else {
            self.index.remove(key as u32);
            self.told[key] = false;
            Ok(())
        }
    }

    // Puts the rule in under its key.
    fn put_in(&mut self, state: &State, rule: RuleRef, key: usize) -> Result<(), Memory>
        requires there { IsRuleThere state.now rule }
        requires used { IsTrue (is_used_on state.now rule) }
        requires key { key ≡ key_of rule }
        requires new { ¬ IsKeyThere self.old key }
        ensures { OnOk result (IsPutRight state.now rule self.old self.new) }
    {
        make_room(&mut self.told, key)?;
        let pair = state.nodes().pair(NodeId(rule.node))?;
        let left = rule_from(self.alloc, pair, rule.dir)?;
        self.index.add(key as u32, &left)?;
        self.told[key] = true;
        Ok(())
    }

    // Whether the index holds anything under the key.
    fn has(&self, key: usize) -> bool
        ensures { IsTrue result ↔ IsKeyThere self.now key }
    {
        match self.told.get(key) {
            Some(is_there) => *is_there,
            None => false,
        }
    }
}

// Makes the list tell of the key.
fn make_room(told: &mut Vec<bool>, key: usize) -> Result<(), AllocError>
    requires { key < 2 ^ 32 }
    ensures same { (k : ℕ) → get_or told.new.items k false ≡ get_or told.old.items k false }
    ensures room { OnOk result (key < length told.new.items) }
{
    for _ in told.len()..key + 1 {
        told.push(false)?;
    }
    Ok(())
}

// Whether some process has the rule.
fn is_in_use(state: &State, rule: RuleRef) -> bool
    requires { IsThere state.now rule.node }
    ensures { result ≡ is_used_on state.now rule }
{
    let kind = if rule.dir == 0 {
        LabelKind::R0
    } else {
        LabelKind::R1
    };
    let label = state.nodes().label(NodeId(rule.node), kind);
    !label.is_empty(state.log())
}
