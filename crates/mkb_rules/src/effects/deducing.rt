// Pairs of overlaps that become equations.
ghost use Rattle.std.specs.Prelude.{◌≡◌, ◌<◌, ◌≤◌, ◌∷◌, [], Err, IfOk, IsFalse, OnErr, OnOk, length, map};
ghost use Rattle.mkb_model.specs.Effects.{added, is_present, most_nodes, with_nodes};
ghost use Rattle.mkb_model.specs.declared.proposed.Proposed.TheVariants.{Deduce, Unjoined};
ghost use Rattle.kb_node.specs.declared.job.Deduced.{Deduced as Overlapped};
ghost use Rattle.mkb_rules.specs.Applying.{Commits, HasBudget};
ghost use Rattle.mkb_rules.specs.Named.{IsThere, Lives};

use crate::applied::Applied;
use crate::effects::label::counted_up;
use crate::labels::only;
use crate::nodes::Nodes;
use crate::state::State;
use kb_label::{Labels, ListLabels, NameLog, Process, Reason};
use kb_node::{Deduced, NodeFault};
use kb_term::{Memory, Origin, RuleRef};
use std::alloc::Global;

impl State {
    /// Two rules have been overlapped for the processes that have both and had not overlapped them: each pair has a node,
    /// which these processes gain as an equation, but for those that have it as a rule.
    ///
    /// # Errors
    ///
    /// Want of memory; the state is then as before.
    pub fn deduce(
        &mut self,
        alloc: Global,
        a: RuleRef,
        b: RuleRef,
        pairs: &[Deduced],
    ) -> Result<Applied, Memory>
        requires budget { HasBudget self.old }
        requires first { IsThere self.old a.node }
        requires second { IsThere self.old b.node }
        ensures ok { IfOk result (Commits self.old (Deduce a b pairs.now) self.new) }
        ensures err { OnErr result (self.new ≡ self.old) }
    {
        let names = self.overlap_names(alloc, a, b)?;
        match try_pairs(&mut self.nodes, &self.log, &names, pairs) {
            Ok(()) => {
                if self.done.gain(&self.log, a, b, names).is_err() {
                    self.nodes.roll_back();
                    return Err(Memory);
                }
                self.commits = counted_up(self.commits, self.settings.budget);
                Ok(Applied::Done)
            }
            Err(NodeFault::Full) => self.give_up(alloc, Reason::Nodes, &names),
            Err(NodeFault::Memory) => Err(Memory),
        }
    }

    /// Overlaps of a process don't join: each pair has a node, which the process gains as an equation, unless it has it as
    /// a rule.
    ///
    /// # Errors
    ///
    /// Want of memory; the state is then as before.
    pub fn unjoined(
        &mut self,
        alloc: Global,
        p: &Process,
        pairs: &[Deduced],
    ) -> Result<Applied, Memory>
        requires budget { HasBudget self.old }
        requires lives { Lives self.old p.now }
        ensures ok { IfOk result (Commits self.old (Unjoined p.now pairs.now) self.new) }
        ensures err { OnErr result (self.new ≡ self.old) }
    {
        let names = only(alloc, &self.log, p)?;
        match try_pairs(&mut self.nodes, &self.log, &names, pairs) {
            Ok(()) => {
                self.commits = counted_up(self.commits, self.settings.budget);
                Ok(Applied::Done)
            }
            Err(NodeFault::Full) => self.give_up(alloc, Reason::Nodes, &names),
            Err(NodeFault::Memory) => Err(Memory),
        }
    }
}

// Adds the pairs; where there is no room or no memory for them, the nodes stay as they were.
fn try_pairs(
    nodes: &mut Nodes,
    log: &NameLog,
    names: &ListLabels,
    pairs: &[Deduced],
) -> Result<(), NodeFault>
    ensures ok { OnOk result (nodes.new.now ≡ added names.now pairs.now nodes.old.now) }
    ensures before { OnOk result (nodes.new.before ≡ nodes.old.now) }
    ensures room { OnOk result (length (with_nodes (map (λ (d : Overlapped). d.pair) pairs.now) nodes.old.now) ≤ most_nodes) }
    ensures full { result ≡ Err NodeFault.Full → most_nodes < length (with_nodes (map (λ (d : Overlapped). d.pair) pairs.now) nodes.old.now) }
    ensures err { OnErr result (nodes.new.now ≡ nodes.old.now) }
{
    nodes.keep();
    let outcome = add_pairs(nodes, log, names, pairs);
    if outcome.is_err() {
        nodes.roll_back();
    }
    outcome
}

// Adds the pairs, one after the other.
fn add_pairs(
    nodes: &mut Nodes,
    log: &NameLog,
    names: &ListLabels,
    pairs: &[Deduced],
) -> Result<(), NodeFault>
    requires few { length nodes.old.now ≤ most_nodes }
    ensures ok { OnOk result (nodes.new.now ≡ added names.now pairs.now nodes.old.now) }
    ensures before { nodes.new.before ≡ nodes.old.before }
    ensures room { OnOk result (length (with_nodes (map (λ (d : Overlapped). d.pair) pairs.now) nodes.old.now) ≤ most_nodes) }
    ensures full { result ≡ Err NodeFault.Full → most_nodes < length (with_nodes (map (λ (d : Overlapped). d.pair) pairs.now) nodes.old.now) }
{
    for i in 0..pairs.len() {
        add_pair(nodes, log, names, &pairs[i])?;
    }
    Ok(())
}

// The pair has a node, which the names gain as an equation.
fn add_pair(
    nodes: &mut Nodes,
    log: &NameLog,
    names: &ListLabels,
    deduced: &Deduced,
) -> Result<(), NodeFault>
    requires few { length nodes.old.now ≤ most_nodes }
    ensures ok { OnOk result (nodes.new.now ≡ added names.now (deduced.now ∷ []) nodes.old.now) }
    ensures few { OnOk result (length nodes.new.now ≤ most_nodes) }
    ensures full { result ≡ Err NodeFault.Full → IsFalse (is_present nodes.old.now deduced.now.pair) × (length nodes.old.now ≡ most_nodes) }
    ensures before { nodes.new.before ≡ nodes.old.before }
{
    let origin = Origin::Overlap {
        outer: deduced.outer,
        inner: deduced.inner,
        position: deduced.position.clone()?,
    };
    let n = nodes.find_or_add(deduced.pair.clone()?, origin)?;
    nodes.gains_equation(log, n, names)?;
    Ok(())
}
