// Rules and pairs that jobs read before.
ghost use Rattle.std.specs.Prelude.{IsTrue, ◌≡◌, ◌<◌, ◌≤◌, ◌^◌, Some, IfOk, IfSome, length};
ghost use Rattle.mkb_model.specs.Plain.{Plain, pair_at, rule_at};
ghost use Rattle.mkb_rules.specs.Named.{IsRuleThere};
ghost use Rattle.mkb_board.specs.Shelf.{AreRulesAt, HoldsRead, IsPutAt, place_of};

use crate::snapshots::named::pair_at;
use kb_jobs::{NamedRules, SharedPair, SharedRules};
use kb_node::NodeId;
use kb_term::{Memory, Rule, RuleRef, rule_from};
use mkb_rules::State;
use std::alloc::{AllocError, Global};

/// The rules that jobs read before, each under its name, and the pairs, each under the number of its node. Who reads a rule again
/// gets a copy that shares its sides, who reads a pair again shares it. The list of rules that was read last is kept whole: who
/// reads the same names next shares it.
///
/// A node keeps its pair, so what is kept is right on each later board.
#[derive(Drop)]
pub(crate) struct Shelf {
    alloc: Global,
    rules: Vec<Option<Rule>>,
    last: Option<NamedRules>,
    pairs: Vec<Option<SharedPair>>,
}

impl Shelf {
    /// Nothing is kept. It takes no memory.
    pub(crate) fn new(alloc: Global) -> Shelf
        ensures { (b : Plain) → HoldsRead b result }
    {
        Shelf {
            alloc,
            rules: Vec::new(alloc),
            last: None,
            pairs: Vec::new(alloc),
        }
    }

    /// The rule with the name: a copy of the one that is kept, else a new one, which is kept from here on where memory allows.
    ///
    /// # Errors
    ///
    /// Want of memory for the rule.
    pub(crate) fn rule_at(&mut self, state: &State, a: RuleRef) -> Result<Rule, Memory>
        requires there { IsRuleThere state.now a }
        requires holds { HoldsRead state.now self.old }
        ensures holds { HoldsRead state.now self.new }
        ensures rule { IfOk result (λ rule. rule_at state.now a ≡ Some rule) }
    {
        if let Some(rule) = self.copy_of(a)? {
            return Ok(rule);
        }
        let rule = new_rule(self.alloc, state, a)?;
        self.keep(a, &rule).ok();
        Ok(rule)
    }

    /// The pair of the node: the one that is kept, else a new one, which is kept from here on where memory allows.
    ///
    /// # Errors
    ///
    /// Want of memory for the pair.
    pub(crate) fn pair_at(&mut self, state: &State, n: NodeId) -> Result<SharedPair, Memory>
        requires there { n.0 < length state.now.nodes }
        requires holds { HoldsRead state.now self.old }
        ensures holds { HoldsRead state.now self.new }
        ensures pair { IfOk result (λ pair. pair_at state.now n.0 ≡ Some pair) }
    {
        if let Some(pair) = self.kept_pair(n)? {
            return Ok(pair);
        }
        let pair = new_pair(self.alloc, state, n)?;
        self.keep_pair(n, &pair).ok();
        Ok(pair)
    }

    /// The list that was read last, where these are its names.
    ///
    /// # Errors
    ///
    /// Want of memory.
    pub(crate) fn last_of(&self, names: &[RuleRef]) -> Result<Option<SharedRules>, AllocError>
        ensures { (b : Plain) → HoldsRead b self.now → IfOk result (λ o. IfSome o (AreRulesAt b names.now)) }
    {
        match &self.last {
            Some(last) if are_same(last.names.as_slice(), names) => {
                let rules = last.rules.clone()?;
                Ok(Some(rules))
            }
            _ => Ok(None),
        }
    }

    /// Keeps the list with its names in place of the one that was read last.
    ///
    /// # Errors
    ///
    /// Want of memory; then what was kept is kept still.
    pub(crate) fn keep_last(
        &mut self,
        names: &[RuleRef],
        rules: &SharedRules,
    ) -> Result<(), AllocError>
        ensures { (b : Plain) → HoldsRead b self.old → AreRulesAt b names.now rules.now → HoldsRead b self.new }
    {
        let names = Vec::from_slice(self.alloc, names)?;
        let rules = rules.clone()?;
        self.last = Some(NamedRules { names, rules });
        Ok(())
    }

    // A copy of the rule with the name, where it is kept.
    fn copy_of(&self, a: RuleRef) -> Result<Option<Rule>, AllocError>
        requires { a.dir ≤ 1 }
        ensures { (b : Plain) → HoldsRead b self.now → IfOk result (λ o. IfSome o (λ rule. rule_at b a ≡ Some rule)) }
    {
        match self.rules.get(place_of(a)) {
            Some(Some(rule)) => {
                let copy = rule.clone()?;
                Ok(Some(copy))
            }
            _ => Ok(None),
        }
    }

    // Keeps a copy of the rule under the name. What is kept holds also where memory is wanting.
    fn keep(&mut self, a: RuleRef, rule: &Rule) -> Result<(), AllocError>
        requires { a.dir ≤ 1 }
        ensures { (b : Plain) → HoldsRead b self.old → rule_at b a ≡ Some rule.now → HoldsRead b self.new }
    {
        let copy = rule.clone()?;
        put(&mut self.rules, place_of(a), copy)
    }

    // The pair of the node, where it is kept.
    fn kept_pair(&self, n: NodeId) -> Result<Option<SharedPair>, AllocError>
        ensures { (b : Plain) → HoldsRead b self.now → IfOk result (λ o. IfSome o (λ pair. pair_at b n.0 ≡ Some pair)) }
    {
        match self.pairs.get(n.0 as usize) {
            Some(Some(pair)) => {
                let copy = pair.clone()?;
                Ok(Some(copy))
            }
            _ => Ok(None),
        }
    }

    // Keeps the pair of the node. What is kept holds also where memory is wanting.
    fn keep_pair(&mut self, n: NodeId, pair: &SharedPair) -> Result<(), AllocError>
        ensures { (b : Plain) → HoldsRead b self.old → pair_at b n.0 ≡ Some pair.now → HoldsRead b self.new }
    {
        let copy = pair.clone()?;
        put(&mut self.pairs, n.0 as usize, copy)
    }
}

// Puts the value at the place, with room made for it. Where memory is wanting nothing is put.
fn put<T: Drop>(kept: &mut Vec<Option<T>>, place: usize, value: T) -> Result<(), AllocError>
    requires { place < 2 ^ 32 }
    ensures { IsPutAt place value kept.old.items kept.new.items }
{
    for _ in kept.len()..place + 1 {
        kept.push(None)?;
    }
    kept[place] = Some(value);
    Ok(())
}

// Where the rule with the name is kept.
fn place_of(a: RuleRef) -> usize
    ensures { result ≡ place_of a }
{
    2 * a.node as usize + a.dir as usize
}

// The rule with the name, made of the pair of its node.
fn new_rule(alloc: Global, state: &State, a: RuleRef) -> Result<Rule, Memory>
    requires { IsRuleThere state.now a }
    ensures { IfOk result (λ rule. rule_at state.now a ≡ Some rule) }
{
    let pair = pair_at(state, NodeId(a.node))?;
    let rule = rule_from(alloc, pair, a.dir)?;
    let rule = rule.shared(alloc)?;
    Ok(rule)
}

// The pair of the node, to be shared.
fn new_pair(alloc: Global, state: &State, n: NodeId) -> Result<SharedPair, Memory>
    requires { n.0 < length state.now.nodes }
    ensures { IfOk result (λ pair. pair_at state.now n.0 ≡ Some pair) }
{
    let pair = pair_at(state, n)?;
    Ok(SharedPair::new(alloc, pair)?)
}

// Whether both lists are the same.
fn are_same(some: &[RuleRef], others: &[RuleRef]) -> bool
    ensures { IsTrue result → some.now ≡ others.now }
{
    if some.len() != others.len() {
        return false;
    }
    for i in 0..some.len() {
        if some[i] != others[i] {
            return false;
        }
    }
    true
}
