// Nodes that are rewritten.
ghost use Rattle.std.specs.Prelude.{◌≡◌, ◌<◌, ◌≤◌, true, Err, IfOk, IsTrue, OnErr, OnOk, Some, length};
ghost use Rattle.kb_term.specs.Pair.{Pair as CanonicalPair, canonical_pair, numbered, variables_of_pair};
ghost use Rattle.kb_term.specs.declared.origin.Origin.TheVariants.{Rewrite as ByRewrite};
ghost use Rattle.kb_term.specs.View.{tree_of};
ghost use Rattle.kb_overlap.specs.Trace.{other_side};
ghost use Rattle.kb_label.specs.Names.{meet};
ghost use Rattle.kb_node.specs.declared.node.LabelKind.TheVariants.{E};
ghost use Rattle.mkb_model.specs.Plain.{label, pair_at, rule_kind as kind_of_rules, other as side_not};
ghost use Rattle.mkb_model.specs.Effects.{direction as leading, if_strict, most_nodes, pair_eq, with_nodes};
ghost use Rattle.mkb_model.specs.declared.proposed.Proposed.TheVariants.{Rewrite};
ghost use Rattle.mkb_rules.specs.Applying.{Commits, HasBudget};
ghost use Rattle.mkb_rules.specs.Named.{IsThere};
ghost use Rattle.mkb_rules.specs.Rewriting.{HasFewVariables, IsNodeOfTarget, LeadsFrom, gained, lost, target_at, target_of, wanted_by};

use crate::applied::{Applied, Committed, without_target};
use crate::effects::label::{counted_up, node_label, other, rule_kind};
use crate::labels::{copy_of, met};
use crate::nodes::Nodes;
use crate::state::State;
use kb_label::{Labels, ListLabels, NameLog, Reason};
use kb_match::fits;
use kb_node::{LabelKind, NodeFault, NodeId};
use kb_term::{
    Found, Memory, Origin, Pair, Position, Rule, RuleRef, Term, canonical, numbered_rule,
};
use std::alloc::{AllocError, Global};

/// What the sources of a rewriting lose: the names on which it acts, those of them that it takes from the rule with the
/// side on the left, and what the equation, the rule with the side on the right and the one with it on the left lose.
#[derive(Drop)]
struct Sources {
    names: ListLabels,
    strict: ListLabels,
    equation: ListLabels,
    right: ListLabels,
    left: ListLabels,
}

/// The pair that a rewriting leads to, where it came from, and the direction that leads to the result.
#[derive(Drop)]
struct Target {
    pair: Pair,
    origin: Origin,
    dir: u8,
}

impl State {
    /// A side of a node is rewritten by a rule: the node loses the processes that have the rule, and the canonical pair of
    /// the result and the other side gains them, as an equation or as the rule whose right side is the result. It tells the node
    /// of that pair; none where there is none.
    ///
    /// # Errors
    ///
    /// Want of memory; the state is then as before.
    pub fn rewrite(
        &mut self,
        alloc: Global,
        n: NodeId,
        side: u8,
        position: &Position,
        rule: RuleRef,
        kind: Found,
        outcome: &Term,
    ) -> Result<Committed, Memory>
        requires budget { HasBudget self.old }
        requires node { IsThere self.old n.0 }
        requires rule { IsThere self.old rule.node }
        requires few { HasFewVariables self.old n.0 side (tree_of outcome.now) }
        ensures ok { IfOk result (λ made. Commits self.old (Rewrite n side position.now rule kind outcome.now) self.new made.applied) }
        ensures target { IfOk result (λ made. made.applied ≡ Applied.Done → LeadsFrom self.new n.0 side (tree_of outcome.now) made.target) }
        ensures err { OnErr result (self.new ≡ self.old) }
    {
        let names = self.rewrite_names(alloc, n, side, rule, kind)?;
        let sources = self.sources_of(alloc, n, side, kind, names)?;
        let target = match self.target_of(alloc, n, side, position, rule, outcome) {
            Ok(target) => target,
            Err(fault) => {
                drop(sources);
                return Err(fault);
            }
        };
        match try_moving(&mut self.nodes, &self.log, n, side, &sources, target) {
            Ok(target) => {
                drop(sources);
                self.commits = counted_up(self.commits, self.settings.budget);
                self.nodes.are_distinct();
                Ok(Committed {
                    applied: Applied::Done,
                    target,
                })
            }
            Err(NodeFault::Full) => {
                let applied = self.give_up(alloc, Reason::Nodes, &sources.names);
                drop(sources);
                without_target(applied)
            }
            Err(NodeFault::Memory) => {
                drop(sources);
                Err(Memory)
            }
        }
    }

    // The pair that a rewriting leads to; none where it is trivial.
    fn target_of(
        &self,
        alloc: Global,
        n: NodeId,
        side: u8,
        position: &Position,
        rule: RuleRef,
        outcome: &Term,
    ) -> Result<Option<Target>, Memory>
        requires node { IsThere self.now n.0 }
        requires few { HasFewVariables self.now n.0 side (tree_of outcome.now) }
        ensures { (q : CanonicalPair) → pair_at self.now n.0 ≡ Some q → IfOk result (λ target. target ≡ target_at q side (ByRewrite n.0 side position.now rule) (tree_of outcome.now)) }
    {
        let rest = self.nodes.table().other_side(n, side)?;
        let origin = Origin::Rewrite {
            node: n.0,
            side,
            position: position.clone()?,
            rule,
        };
        target_for(alloc, &rest, outcome, origin)
    }

    // What the sources of a rewriting lose.
    fn sources_of(
        &self,
        alloc: Global,
        n: NodeId,
        side: u8,
        kind: Found,
        names: ListLabels,
    ) -> Result<Sources, AllocError>
        requires { IsThere self.now n.0 }
        ensures names { IfOk result (λ s. s.names ≡ names) }
        ensures strict { IfOk result (λ s. s.strict ≡ if_strict kind names) }
        ensures equation { IfOk result (λ s. s.equation ≡ meet names (label self.now n.0 E)) }
        ensures right { IfOk result (λ s. s.right ≡ meet names (label self.now n.0 (kind_of_rules (side_not side)))) }
        ensures left { IfOk result (λ s. s.left ≡ if_strict kind (meet names (label self.now n.0 (kind_of_rules side)))) }
    {
        let mut sources = Sources {
            names,
            strict: ListLabels::new(alloc),
            equation: ListLabels::new(alloc),
            right: ListLabels::new(alloc),
            left: ListLabels::new(alloc),
        };
        match self.find_losses(alloc, n, side, kind, &mut sources) {
            Ok(()) => Ok(sources),
            Err(fault) => {
                drop(sources);
                Err(fault)
            }
        }
    }

    // Finds what of the names each source loses.
    fn find_losses(
        &self,
        alloc: Global,
        n: NodeId,
        side: u8,
        kind: Found,
        sources: &mut Sources,
    ) -> Result<(), AllocError>
        requires { IsThere self.now n.0 }
        ensures names { sources.new.names ≡ sources.old.names }
        ensures strict { OnOk result (sources.new.strict ≡ if_strict kind sources.old.names) }
        ensures equation { OnOk result (sources.new.equation ≡ meet sources.old.names (label self.now n.0 E)) }
        ensures right { OnOk result (sources.new.right ≡ meet sources.old.names (label self.now n.0 (kind_of_rules (side_not side)))) }
        ensures left { OnOk result (sources.new.left ≡ if_strict kind (meet sources.old.names (label self.now n.0 (kind_of_rules side)))) }
    {
        let names = copy_of(alloc, &self.log, &sources.names)?;
        sources.strict = strict_only(alloc, kind, names);
        let from_equation = node_label(&self.nodes, n, LabelKind::E);
        sources.equation = met(alloc, &self.log, &sources.names, from_equation)?;
        let from_right = node_label(&self.nodes, n, rule_kind(other(side)));
        sources.right = met(alloc, &self.log, &sources.names, from_right)?;
        let from_left = node_label(&self.nodes, n, rule_kind(side));
        let left = met(alloc, &self.log, &sources.names, from_left)?;
        sources.left = strict_only(alloc, kind, left);
        Ok(())
    }
}

// The names where the redex is strict, else none.
fn strict_only(alloc: Global, kind: Found, names: ListLabels) -> ListLabels
    ensures { result ≡ if_strict kind names }
{
    match kind {
        Found::Strict => names,
        Found::No | Found::Variant => ListLabels::new(alloc),
    }
}

// The canonical pair of the result and the other side; none where they are equal.
fn target_for(
    alloc: Global,
    rest: &Term,
    outcome: &Term,
    origin: Origin,
) -> Result<Option<Target>, Memory>
    requires { length (variables_of_pair (tree_of outcome.now) (tree_of rest.now)) ≤ 64 }
    ensures { IfOk result (λ target. target ≡ target_of (canonical_pair (tree_of outcome.now) (tree_of rest.now)) origin (tree_of rest.now) (tree_of outcome.now)) }
{
    match canonical(alloc, outcome, rest)? {
        None => Ok(None),
        Some(pair) => {
            let dir = direction(alloc, rest, outcome, &pair)?;
            Ok(Some(Target { pair, origin, dir }))
        }
    }
}

// The direction in which the canonical pair of the two terms leads from the first to the second. Mostly their symbols tell it.
fn direction(alloc: Global, rest: &Term, outcome: &Term, pair: &Pair) -> Result<u8, Memory>
    requires few { length (variables_of_pair (tree_of rest.now) (tree_of outcome.now)) ≤ 64 }
    requires of_both { canonical_pair (tree_of outcome.now) (tree_of rest.now) ≡ Some pair.now }
    ensures { IfOk result (λ dir. dir ≡ leading (tree_of rest.now) (tree_of outcome.now) pair.now) }
{
    if !fit_sides(rest, outcome, pair) {
        return Ok(1);
    }
    if !fit_sides(outcome, rest, pair) {
        return Ok(0);
    }
    let rule = numbered_rule(alloc, rest, outcome)?;
    if has_sides_of(&rule, pair) {
        Ok(0)
    } else {
        Ok(1)
    }
}

// Whether the terms fit the sides of the pair, as they do where the pair is that of both with their variables numbered.
fn fit_sides(first: &Term, second: &Term, pair: &Pair) -> bool
    ensures { pair_eq (numbered (tree_of first.now) (tree_of second.now)) pair.now ≡ true → IsTrue result }
{
    fits(first, pair.first()) && fits(second, pair.second())
}

// Whether the rule leads from side 0 of the pair to side 1.
fn has_sides_of(rule: &Rule, pair: &Pair) -> bool
    ensures { result ≡ pair_eq (record { first = rule.now.left; second = rule.now.right }) pair.now }
{
    *rule.left() == *pair.first() && *rule.right() == *pair.second()
}

// Moves the names from the sources to the target, and tells its node. Where there is no room or no memory for it, the nodes stay as
// they were.
fn try_moving(
    nodes: &mut Nodes,
    log: &NameLog,
    n: NodeId,
    side: u8,
    sources: &Sources,
    target: Option<Target>,
) -> Result<Option<NodeId>, NodeFault>
    requires { n.0 < length nodes.old.now }
    ensures ok { OnOk result (nodes.new.now ≡ gained target sources.now (lost n.0 side sources.now nodes.old.now)) }
    ensures node { IfOk result (IsNodeOfTarget nodes.new.now target) }
    ensures room { OnOk result (length (with_nodes (wanted_by target) nodes.old.now) ≤ most_nodes) }
    ensures full { result ≡ Err NodeFault.Full → most_nodes < length (with_nodes (wanted_by target) nodes.old.now) }
    ensures err { OnErr result (nodes.new.now ≡ nodes.old.now) }
{
    nodes.keep();
    let outcome = moved(nodes, log, n, side, sources, target);
    if outcome.is_err() {
        nodes.roll_back();
    }
    outcome
}

// Moves the names from the sources to the target, and tells its node.
fn moved(
    nodes: &mut Nodes,
    log: &NameLog,
    n: NodeId,
    side: u8,
    sources: &Sources,
    target: Option<Target>,
) -> Result<Option<NodeId>, NodeFault>
    requires there { n.0 < length nodes.old.now }
    requires few { length nodes.old.now ≤ most_nodes }
    ensures ok { OnOk result (nodes.new.now ≡ gained target sources.now (lost n.0 side sources.now nodes.old.now)) }
    ensures node { IfOk result (IsNodeOfTarget nodes.new.now target) }
    ensures room { OnOk result (length (with_nodes (wanted_by target) nodes.old.now) ≤ most_nodes) }
    ensures full { result ≡ Err NodeFault.Full → most_nodes < length (with_nodes (wanted_by target) nodes.old.now) }
    ensures before { nodes.new.before ≡ nodes.old.before }
{
    lose(nodes, log, n, side, sources)?;
    match target {
        None => Ok(None),
        Some(target) => gain(nodes, log, sources, target),
    }
}

// The sources lose the names.
fn lose(
    nodes: &mut Nodes,
    log: &NameLog,
    n: NodeId,
    side: u8,
    sources: &Sources,
) -> Result<(), AllocError>
    requires { n.0 < length nodes.old.now }
    ensures ok { OnOk result (nodes.new.now ≡ lost n.0 side sources.now nodes.old.now) }
    ensures before { nodes.new.before ≡ nodes.old.before }
{
    nodes.loses(log, n, rule_kind(side), &sources.strict)?;
    nodes.loses(log, n, rule_kind(other(side)), &sources.names)?;
    nodes.loses(log, n, LabelKind::E, &sources.names)
}

// The target gains what the sources lost, and its node is told.
fn gain(
    nodes: &mut Nodes,
    log: &NameLog,
    sources: &Sources,
    target: Target,
) -> Result<Option<NodeId>, NodeFault>
    requires { length nodes.old.now ≤ most_nodes }
    ensures ok { OnOk result (nodes.new.now ≡ gained (Some target) sources.now nodes.old.now) }
    ensures node { IfOk result (IsNodeOfTarget nodes.new.now (Some target)) }
    ensures room { OnOk result (length (with_nodes (wanted_by (Some target)) nodes.old.now) ≤ most_nodes) }
    ensures full { result ≡ Err NodeFault.Full → most_nodes < length (with_nodes (wanted_by (Some target)) nodes.old.now) }
    ensures before { nodes.new.before ≡ nodes.old.before }
{
    let Target { pair, origin, dir } = target;
    let n = nodes.find_or_add(pair, origin)?;
    nodes.gains_rule(log, RuleRef { node: n.0, dir }, &sources.right)?;
    nodes.gains_equation(log, n, &sources.equation)?;
    nodes.gains_equation(log, n, &sources.left)?;
    Ok(Some(n))
}
