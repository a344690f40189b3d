// What an Orient proposes.
ghost use Rattle.std.specs.Prelude.{◌≤◌, length, IfOk};
ghost use Rattle.kb_linear.specs.Limits.{AreMeasurable};
ghost use Rattle.kb_cert.specs.Family.{IsFirstOrder};
ghost use Rattle.kb_jobs.specs.Orienting.{AreOneMore, IsOrientable, IsStart, OrientsTowards, ProposesOrient};

use crate::searching::Searcher;
use kb_cert::{Certificate, Family, is_greater, more_rules_are_never_earlier, search_from};
use kb_label::Process;
use kb_node::NodeId;
use kb_term::{Memory, Rule, Signature};
use mkb_model::Proposed;
use std::alloc::Global;
use std::sync::Wait;

/// What an Orient reads: the orders to search, the one in force, and the rule of its node with the process's constraints behind
/// it, once for each direction of the node. The new rule comes first, since it is the one that a search fails on soonest.
#[derive(Drop)]
pub struct OrientSnapshot {
    pub process: Process,
    pub node: NodeId,
    pub family: Family,
    pub signature: Signature,
    /// The order by which the process orients: the first for its constraints.
    pub in_force: Certificate,
    pub forth: Vec<Rule>,
    pub back: Vec<Rule>,
}

/// Searches the family for the first member that orders the constraints with direction 0 of the node, and for the first with
/// direction 1. Where the order in force orders the new rule it is that member; else the search begins at it.
pub fn orient(alloc: Global, s: &OrientSnapshot) -> Result<Proposed, Memory>
    requires { IsOrientable s.now }
    ensures { IfOk result (ProposesOrient s.now) }
{
    let forth = first_order(alloc, s, &s.forth)?;
    let back = first_order(alloc, s, &s.back)?;
    Ok(oriented(s, forth, back))
}

/// The same, where the searcher is asked for these members.
pub(crate) fn orient_by<S: Searcher, R: Wait>(
    rt: &R,
    s: &OrientSnapshot,
    by: &S,
) -> Result<Proposed, Memory>
    requires { IsOrientable s.now }
    ensures { IfOk result (ProposesOrient s.now) }
{
    let forth = first_order_by(rt, s, &s.forth, by)?;
    let back = first_order_by(rt, s, &s.back, by)?;
    Ok(oriented(s, forth, back))
}

/// What is known of the first order for the constraints and a new rule before a search.
#[derive(Drop)]
enum Start {
    /// It is the order in force.
    Answer(Certificate),
    /// None before the order in force orders the rules.
    Bound(Certificate),
}

// What the order in force says of these rules.
fn start_for(s: &OrientSnapshot, rules: &[Rule]) -> Result<Start, Memory>
    requires measurable { AreMeasurable rules.now }
    requires more { AreOneMore s.now rules.now }
    ensures { IfOk result (IsStart s.now rules.now) }
{
    more_rules_are_never_earlier();
    let order = s.in_force.clone()?;
    match rules.first() {
        Some(rule) if is_greater(&order, rule) => Ok(Start::Answer(order)),
        _ => Ok(Start::Bound(order)),
    }
}

// The first member of the family for these rules.
fn first_order(
    alloc: Global,
    s: &OrientSnapshot,
    rules: &[Rule],
) -> Result<Option<Certificate>, Memory>
    requires few { length s.now.signature ≤ 24 }
    requires measurable { AreMeasurable rules.now }
    requires more { AreOneMore s.now rules.now }
    ensures { IfOk result (λ found. IsFirstOrder s.now.family s.now.signature rules.now found) }
{
    match start_for(s, rules)? {
        Start::Answer(order) => Ok(Some(order)),
        Start::Bound(order) => search_from(alloc, s.family, &s.signature, rules, order),
    }
}

// The same, where the searcher is asked.
fn first_order_by<S: Searcher, R: Wait>(
    rt: &R,
    s: &OrientSnapshot,
    rules: &[Rule],
    by: &S,
) -> Result<Option<Certificate>, Memory>
    requires few { length s.now.signature ≤ 24 }
    requires measurable { AreMeasurable rules.now }
    requires more { AreOneMore s.now rules.now }
    ensures { IfOk result (λ found. IsFirstOrder s.now.family s.now.signature rules.now found) }
{
    match start_for(s, rules)? {
        Start::Answer(order) => Ok(Some(order)),
        Start::Bound(order) => by.search_from(rt, s.family, &s.signature, rules, order),
    }
}

// What is proposed where these are the first members for the two directions.
fn oriented(s: &OrientSnapshot, forth: Option<Certificate>, back: Option<Certificate>) -> Proposed
    requires forth { OrientsTowards s.now 0 forth }
    requires back { OrientsTowards s.now 1 back }
    ensures { ProposesOrient s.now result }
{
    let process = s.process;
    let node = s.node;
    match forth {
        Some(cert0) => match back {
            Some(cert1) => Proposed::Both {
                process,
                node,
                cert0,
                cert1,
            },
            None => Proposed::One {
                process,
                node,
                dir: 0,
                cert: cert0,
            },
        },
        None => match back {
            Some(cert) => Proposed::One {
                process,
                node,
                dir: 1,
                cert,
            },
            None => Proposed::Refuse { process, node },
        },
    }
}
