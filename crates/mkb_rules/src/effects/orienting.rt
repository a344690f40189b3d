// Equations that become rules, and equations that can't.
ghost use Rattle.std.specs.Prelude.{◌≡◌, ◌<◌, ◌∷◌, [], length, IfOk, OnOk, OnErr, IsTrue};
ghost use Rattle.kb_label.specs.Names.{has};
ghost use Rattle.kb_node.specs.declared.node.LabelKind.TheVariants.{X};
ghost use Rattle.mkb_model.specs.Plain.{constraint_kind as kind_of_constraints};
ghost use Rattle.mkb_model.specs.Effects.{gains, certify_in};
ghost use Rattle.mkb_model.specs.declared.proposed.Proposed.TheVariants.{One, Refuse};
ghost use Rattle.mkb_rules.specs.Applying.{HasBudget, Commits};
ghost use Rattle.mkb_rules.specs.Parts.{oriented_by};
ghost use Rattle.mkb_rules.specs.Kept.{plain_certificates};

use crate::applied::Applied;
use crate::effects::label::{counted_up, rule_kind};
use crate::labels::only;
use crate::nodes::Nodes;
use crate::state::{Certified, State, certificate_place};
use kb_cert::Certificate;
use kb_label::{ListLabels, NameLog, Process};
use kb_node::{LabelKind, NodeId};
use kb_term::{Memory, RuleRef};
use std::alloc::{AllocError, Global};

impl State {
    /// The process can't orient the equation.
    ///
    /// # Errors
    ///
    /// Want of memory; the state is then as before.
    pub fn refuse(&mut self, alloc: Global, p: &Process, n: NodeId) -> Result<Applied, Memory>
        requires budget { HasBudget self.old }
        requires lives { IsTrue (has self.old.living p.now) }
        requires there { n.0 < length self.old.nodes }
        ensures ok { IfOk result (Commits self.old (Refuse p.now n) self.new) }
        ensures err { OnErr result (self.new ≡ self.old) }
    {
        self.nodes.are_few();
        let names = only(alloc, &self.log, p)?;
        try_refuse(&mut self.nodes, &self.log, n, &names)?;
        self.commits = counted_up(self.commits, self.settings.budget);
        Ok(Applied::Done)
    }

    /// The process turns the equation into the rule of a direction, and orients by this order from now on.
    ///
    /// # Errors
    ///
    /// Want of memory; the state is then as before.
    pub fn orient_one(
        &mut self,
        alloc: Global,
        p: &Process,
        n: NodeId,
        dir: u8,
        cert: &Certificate,
    ) -> Result<Applied, Memory>
        requires budget { HasBudget self.old }
        requires lives { IsTrue (has self.old.living p.now) }
        requires there { n.0 < length self.old.nodes }
        ensures ok { IfOk result (Commits self.old (One p.now n dir cert.now) self.new) }
        ensures err { OnErr result (self.new ≡ self.old) }
    {
        self.nodes.are_few();
        let names = only(alloc, &self.log, p)?;
        let certificate = cert.clone()?;
        let rule = RuleRef { node: n.0, dir };
        try_orient(&mut self.nodes, &self.log, rule, &names)?;
        certify(&mut self.certificates, p, certificate);
        self.commits = counted_up(self.commits, self.settings.budget);
        Ok(Applied::Done)
    }
}

/// The label of the constraints of a direction.
pub(crate) fn constraint_kind(dir: u8) -> LabelKind
    ensures { result ≡ kind_of_constraints dir }
{
    if dir == 0 {
        LabelKind::C0
    } else {
        LabelKind::C1
    }
}

// The processes can't orient the node; after want of memory the nodes are as before.
fn try_refuse(
    nodes: &mut Nodes,
    log: &NameLog,
    n: NodeId,
    names: &ListLabels,
) -> Result<(), AllocError>
    requires { n.0 < length nodes.old.now }
    ensures ok { OnOk result (nodes.new.now ≡ gains n.0 X names.now nodes.old.now) }
    ensures err { OnErr result (nodes.new.now ≡ nodes.old.now) }
{
    nodes.keep();
    match nodes.gains(log, n, LabelKind::X, names) {
        Ok(()) => Ok(()),
        Err(fault) => {
            nodes.roll_back();
            Err(fault)
        }
    }
}

// The processes turn the equation into the rule; after want of memory the nodes are as before.
fn try_orient(
    nodes: &mut Nodes,
    log: &NameLog,
    rule: RuleRef,
    names: &ListLabels,
) -> Result<(), AllocError>
    requires { rule.node < length nodes.old.now }
    ensures ok { OnOk result (nodes.new.now ≡ oriented_by names.now rule nodes.old.now) }
    ensures err { OnErr result (nodes.new.now ≡ nodes.old.now) }
{
    nodes.keep();
    match orient_nodes(nodes, log, rule, names) {
        Ok(()) => Ok(()),
        Err(fault) => {
            nodes.roll_back();
            Err(fault)
        }
    }
}

/// The processes turn the equation into the rule, and keep it as a constraint.
///
/// # Errors
///
/// Want of memory; the nodes are then to be rolled back.
#[tactic(auto, using(crate::proofs::Relabelled::length_loses, crate::proofs::Relabelled::length_gains))]
pub(crate) fn orient_nodes(
    nodes: &mut Nodes,
    log: &NameLog,
    rule: RuleRef,
    names: &ListLabels,
) -> Result<(), AllocError>
    requires { rule.node < length nodes.old.now }
    ensures ok { OnOk result (nodes.new.now ≡ oriented_by names.now rule nodes.old.now) }
    ensures before { nodes.new.before ≡ nodes.old.before }
{
    let n = NodeId(rule.node);
    nodes.loses(log, n, LabelKind::E, names)?;
    nodes.gains(log, n, rule_kind(rule.dir), names)?;
    nodes.gains(log, n, constraint_kind(rule.dir), names)
}

/// The process orients by this order from now on.
pub(crate) fn certify(certificates: &mut Vec<Certified>, p: &Process, certificate: Certificate)
    ensures { plain_certificates certificates.new.items ≡ certify_in p.now certificate (plain_certificates certificates.old.items) }
{
    let place = certificate_place(certificates, p);
    if place < certificates.len() {
        certificates[place].certificate = certificate;
    }
}
