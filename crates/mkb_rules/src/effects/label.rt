// The processes on which a proposal acts.
ghost use Rattle.std.specs.Prelude.{◌≡◌, ◌<◌, ◌≤◌, ◌+◌, length, IfOk, IsTrue};
ghost use Rattle.kb_label.specs.Names.{has, is_empty, meet};
ghost use Rattle.mkb_model.specs.Plain.{is_equation, label_at, label, rule_kind as kind_of_rules, other as other_side};
ghost use Rattle.mkb_model.specs.Effects.{rewrite_label, overlap_label, orient_label, effect_label, if_strict, is_dropped, most_nodes};
ghost use Rattle.mkb_rules.specs.Named.{HasNamed};

use crate::labels::{copy_of, joined, met, only};
use crate::nodes::Nodes;
use crate::state::State;
use kb_label::{Labels, ListLabels, Process};
use kb_node::{LabelKind, NodeId};
use kb_term::{Found, Memory, RuleRef};
use mkb_model::Proposed;
use std::alloc::{AllocError, Global};

/// The label of the rules of a direction.
pub(crate) fn rule_kind(dir: u8) -> LabelKind
    ensures { result ≡ kind_of_rules dir }
{
    if dir == 0 {
        LabelKind::R0
    } else {
        LabelKind::R1
    }
}

/// The side that is not this one.
pub(crate) fn other(side: u8) -> u8
    ensures { result ≡ other_side side }
{
    if side == 0 { 1 } else { 0 }
}

/// The label of a node that has this kind.
pub(crate) fn node_label(nodes: &Nodes, n: NodeId, kind: LabelKind) -> &ListLabels
    requires { n.0 < length nodes.now.now }
    ensures { result.now ≡ label_at nodes.now.now n.0 kind }
{
    nodes.table().label(n, kind)
}

/// How many nodes there are, at most 4,096.
pub(crate) fn node_count(nodes: &Nodes) -> u32
    ensures count { result ≡ length nodes.now.now }
    ensures most { length nodes.now.now ≤ most_nodes }
{
    nodes.table().len()
}

/// The number of commits after one more.
pub(crate) fn counted_up(commits: u32, budget: u32) -> u32
    requires { commits < budget }
    ensures { result ≡ commits + 1 }
{
    commits + 1
}

impl State {
    /// The processes that have the rule.
    pub(crate) fn rule_label(&self, rule: RuleRef) -> &ListLabels
        requires { rule.node < length self.now.nodes }
        ensures { result.now ≡ label self.now rule.node (kind_of_rules rule.dir) }
    {
        node_label(&self.nodes, NodeId(rule.node), rule_kind(rule.dir))
    }

    /// The processes that have the rule and are in a source of the redex.
    pub(crate) fn rewrite_names(
        &self,
        alloc: Global,
        n: NodeId,
        side: u8,
        rule: RuleRef,
        found: Found,
    ) -> Result<ListLabels, AllocError>
        requires node { n.0 < length self.now.nodes }
        requires rule { rule.node < length self.now.nodes }
        ensures { IfOk result (λ l. l ≡ rewrite_label self.now n.0 side rule found) }
    {
        let mut sources = self.strict_names(alloc, n, side, found)?;
        let from_right = node_label(&self.nodes, n, rule_kind(other(side)));
        sources = joined(alloc, &self.log, from_right, &sources)?;
        let from_equation = node_label(&self.nodes, n, LabelKind::E);
        sources = joined(alloc, &self.log, from_equation, &sources)?;
        met(alloc, &self.log, self.rule_label(rule), &sources)
    }

    // The processes that have the node as a rule with the side on the left, where the redex is strict; else none.
    fn strict_names(
        &self,
        alloc: Global,
        n: NodeId,
        side: u8,
        found: Found,
    ) -> Result<ListLabels, AllocError>
        requires { n.0 < length self.now.nodes }
        ensures { IfOk result (λ l. l ≡ if_strict found (label self.now n.0 (kind_of_rules side))) }
    {
        match found {
            Found::Strict => copy_of(
                alloc,
                &self.log,
                node_label(&self.nodes, n, rule_kind(side)),
            ),
            Found::No | Found::Variant => Ok(ListLabels::new(alloc)),
        }
    }

    /// The processes that have both rules and have not overlapped them yet.
    pub(crate) fn overlap_names(
        &self,
        alloc: Global,
        a: RuleRef,
        b: RuleRef,
    ) -> Result<ListLabels, AllocError>
        requires first { a.node < length self.now.nodes }
        requires second { b.node < length self.now.nodes }
        ensures { IfOk result (λ l. l ≡ overlap_label self.now a b) }
    {
        let mut names = met(alloc, &self.log, self.rule_label(a), self.rule_label(b))?;
        match self.done.names(a, b) {
            Some(done) => {
                names.minus(&self.log, done)?;
                Ok(names)
            }
            None => Ok(names),
        }
    }

    /// The process, where it has the node as an equation.
    pub(crate) fn orient_names(
        &self,
        alloc: Global,
        p: &Process,
        n: NodeId,
    ) -> Result<ListLabels, AllocError>
        requires node { n.0 < length self.now.nodes }
        requires lives { IsTrue (has self.now.living p.now) }
        ensures { IfOk result (λ l. l ≡ orient_label self.now p.now n.0) }
    {
        if node_label(&self.nodes, n, LabelKind::E).has(&self.log, p) {
            only(alloc, &self.log, p)
        } else {
            Ok(ListLabels::new(alloc))
        }
    }

    /// The processes on which a proposal acts, in their order.
    ///
    /// # Errors
    ///
    /// Want of memory.
    pub fn effect_label(&self, alloc: Global, proposal: &Proposed) -> Result<Vec<Process>, Memory>
        requires { HasNamed self.now proposal.now }
        ensures { IfOk result (λ names. names.items ≡ effect_label self.now proposal.now) }
    {
        let names = self.effect_names(alloc, proposal)?;
        let names = names.names(&self.log)?;
        Ok(names)
    }

    /// Whether nothing is left for a proposal to act on.
    ///
    /// # Errors
    ///
    /// Want of memory.
    pub fn is_dropped(&self, alloc: Global, proposal: &Proposed) -> Result<bool, Memory>
        requires { HasNamed self.now proposal.now }
        ensures { IfOk result (λ idle. idle ≡ is_dropped self.now proposal.now) }
    {
        match proposal {
            Proposed::Facts(_) => Ok(false),
            Proposed::Rewrite {
                node,
                side,
                rule,
                kind,
                ..
            } => Ok(self.has_no_rewriter(*node, *side, *rule, *kind)),
            Proposed::One { process, node, .. } => Ok(!self.has_equation_at(process, *node)),
            Proposed::Both { process, node, .. } => Ok(!self.has_equation_at(process, *node)),
            Proposed::Refuse { process, node } => Ok(!self.has_equation_at(process, *node)),
            Proposed::Deduce { a, b, .. } => Ok(self.have_all_overlapped(alloc, *a, *b)?),
            Proposed::Unjoined { .. } => Ok(false),
            Proposed::Closed { .. } => Ok(false),
            Proposed::Limit { job, cause } => {
                let names = self.stopped_names(alloc, job, cause)?;
                Ok(names.is_empty(&self.log))
            }
        }
    }

    // Whether each process that has both rules has overlapped them. Where nobody has, it takes no memory.
    fn have_all_overlapped(&self, alloc: Global, a: RuleRef, b: RuleRef) -> Result<bool, AllocError>
        requires first { a.node < length self.now.nodes }
        requires second { b.node < length self.now.nodes }
        ensures { IfOk result (λ idle. idle ≡ is_empty (overlap_label self.now a b)) }
    {
        match self.done.names(a, b) {
            None => {
                let first = self.rule_label(a);
                let second = self.rule_label(b);
                Ok(first.is_disjoint(second))
            }
            Some(_) => {
                let names = self.overlap_names(alloc, a, b)?;
                Ok(names.is_empty(&self.log))
            }
        }
    }

    // Whether no process has the rule and is in a source of the redex. It takes no memory.
    fn has_no_rewriter(&self, n: NodeId, side: u8, rule: RuleRef, found: Found) -> bool
        requires node { n.0 < length self.now.nodes }
        requires rule { rule.node < length self.now.nodes }
        ensures { result ≡ is_empty (rewrite_label self.now n.0 side rule found) }
    {
        if !self.is_apart(rule, n, LabelKind::E) {
            return false;
        }
        if !self.is_apart(rule, n, rule_kind(other(side))) {
            return false;
        }
        match found {
            Found::Strict => self.is_apart(rule, n, rule_kind(side)),
            Found::No | Found::Variant => true,
        }
    }

    // Whether no process has the rule and is in the label of this kind of the node.
    fn is_apart(&self, rule: RuleRef, n: NodeId, kind: LabelKind) -> bool
        requires rule { rule.node < length self.now.nodes }
        requires node { n.0 < length self.now.nodes }
        ensures { result ≡ is_empty (meet (label self.now rule.node (kind_of_rules rule.dir)) (label self.now n.0 kind)) }
    {
        self.rule_label(rule)
            .is_disjoint(node_label(&self.nodes, n, kind))
    }

    // Whether the process has the node as an equation.
    fn has_equation_at(&self, p: &Process, n: NodeId) -> bool
        requires { n.0 < length self.now.nodes }
        ensures { result ≡ is_equation self.now p.now n.0 }
    {
        node_label(&self.nodes, n, LabelKind::E).has(&self.log, p)
    }

    // The processes on which a proposal acts.
    fn effect_names(&self, alloc: Global, proposal: &Proposed) -> Result<ListLabels, AllocError>
        requires { HasNamed self.now proposal.now }
        ensures { IfOk result (λ l. l ≡ effect_label self.now proposal.now) }
    {
        match proposal {
            Proposed::Facts(_) => Ok(ListLabels::new(alloc)),
            Proposed::Rewrite {
                node,
                side,
                rule,
                kind,
                ..
            } => self.rewrite_names(alloc, *node, *side, *rule, *kind),
            Proposed::One { process, node, .. } => self.orient_names(alloc, process, *node),
            Proposed::Both { process, node, .. } => self.orient_names(alloc, process, *node),
            Proposed::Refuse { process, node } => self.orient_names(alloc, process, *node),
            Proposed::Deduce { a, b, .. } => self.overlap_names(alloc, *a, *b),
            Proposed::Unjoined { process, .. } => only(alloc, &self.log, process),
            Proposed::Closed { process } => only(alloc, &self.log, process),
            Proposed::Limit { job, cause } => self.stopped_names(alloc, job, cause),
        }
    }
}
