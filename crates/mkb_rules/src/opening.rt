// The state before any commit.
ghost use Rattle.std.specs.Prelude.{◌≡◌, ◌+◌, ◌<◌, ◌≤◌, ◌∷◌, [], All, IfOk, OnOk, length, map, take};
ghost use Rattle.kb_term.specs.Pair.{canonical_pair, variables_of_pair};
ghost use Rattle.kb_term.specs.Signature.{IsWithinLimits};
ghost use Rattle.kb_term.specs.View.{equations_of_list, tree_of};
ghost use Rattle.kb_label.specs.Names.{root};
ghost use Rattle.kb_cert.specs.Family.{family as orders_of_family};
ghost use Rattle.mkb_model.specs.Journals.{opening, with_input, with_inputs};
ghost use Rattle.mkb_rules.specs.Kept.{first_order_in, plain_certificates};

use crate::facts::Facts;
use crate::labels::only;
use crate::nodes::Nodes;
use crate::overlapped::OverlappedPairs;
use crate::sleepers::Sleepers;
use crate::state::{Certified, GivenUp, State};
use kb_cert::{Family, search};
use kb_label::{Labels, ListLabels, Living, NameLog, Process};
use kb_node::NodeFault;
use kb_term::{MAX_NODES, Memory, Origin, Problem, Signature, Term, canonical};
use mkb_model::Settings;
use std::alloc::Global;

/// Those parts of the first state that take memory.
#[derive(Drop)]
struct FirstParts {
    log: NameLog,
    nodes: Nodes,
    asleep: Sleepers,
    certificates: Vec<Certified>,
}

impl State {
    /// The state before any commit: the first process has the problem's equations that are not trivial, and orients by the
    /// first order of the run's family.
    ///
    /// # Errors
    ///
    /// Want of memory.
    pub fn start(alloc: Global, problem: Problem, settings: Settings) -> Result<State, Memory>
        requires { IsWithinLimits problem }
        ensures { IfOk result (λ state. state ≡ opening problem settings) }
    {
        match start_parts(alloc, &problem, settings.family) {
            Ok(parts) => Ok(State {
                problem,
                settings,
                log: parts.log,
                nodes: parts.nodes,
                done: OverlappedPairs::new(alloc),
                facts: Facts::new(alloc),
                closed: ListLabels::new(alloc),
                over: GivenUp::nobody(alloc),
                asleep: parts.asleep,
                commits: 0,
                certificates: parts.certificates,
            }),
            Err(fault) => {
                drop(problem);
                Err(fault)
            }
        }
    }
}

// The parts that take memory, with the problem's equations and the family's first order.
fn start_parts(alloc: Global, problem: &Problem, family: Family) -> Result<FirstParts, Memory>
    requires { IsWithinLimits problem.now }
    ensures log { IfOk result (λ parts. parts.log ≡ root ∷ []) }
    ensures nodes { IfOk result (λ parts. parts.nodes.now ≡ with_inputs 1 problem.now.equations []) }
    ensures asleep { IfOk result (λ parts. parts.asleep ≡ []) }
    ensures certificates { IfOk result (λ parts. plain_certificates parts.certificates.items ≡ first_order_in (orders_of_family family problem.now.signature)) }
{
    let asleep = Sleepers::new(alloc)?;
    let log = NameLog::start(alloc)?;
    let certificates = first_certificates(alloc, family, problem.signature())?;
    let nodes = input_nodes(alloc, &log, problem.equations())?;
    Ok(FirstParts {
        log,
        nodes,
        asleep,
        certificates,
    })
}

// The order of the first process: the first one of the family, if there is one.
fn first_certificates(
    alloc: Global,
    family: Family,
    signature: &Signature,
) -> Result<Vec<Certified>, Memory>
    requires { length signature.now ≤ 24 }
    ensures { IfOk result (λ orders. plain_certificates orders.items ≡ first_order_in (orders_of_family family signature.now)) }
{
    let mut certificates = Vec::new(alloc);
    match search(alloc, family, signature, &[])? {
        None => Ok(certificates),
        Some(certificate) => {
            certificates.push(Certified {
                name: Process::root(),
                certificate,
            })?;
            Ok(certificates)
        }
    }
}

// The nodes of the input equations that are not trivial, which the first process has as equations.
fn input_nodes(alloc: Global, log: &NameLog, equations: &[(Term, Term)]) -> Result<Nodes, Memory>
    requires first { log.now ≡ root ∷ [] }
    requires few { length equations.now ≤ 256 }
    requires variables { All (λ e. length (variables_of_pair e.0 e.1) ≤ 64) (equations_of_list equations.now) }
    ensures { IfOk result (λ nodes. nodes.now ≡ with_inputs 1 (equations_of_list equations.now) []) }
{
    let mut nodes = Nodes::new(alloc);
    match add_inputs(alloc, &mut nodes, log, equations) {
        Ok(()) => {
            nodes.keep_accounts(log);
            Ok(nodes)
        }
        Err(fault) => {
            drop(nodes);
            Err(fault)
        }
    }
}

// Adds the nodes of the input equations that are not trivial, where there are no nodes yet.
fn add_inputs(
    alloc: Global,
    nodes: &mut Nodes,
    log: &NameLog,
    equations: &[(Term, Term)],
) -> Result<(), Memory>
    requires first { log.now ≡ root ∷ [] }
    requires none { nodes.old.now ≡ [] }
    requires few { length equations.now ≤ 256 }
    requires variables { All (λ e. length (variables_of_pair e.0 e.1) ≤ 64) (equations_of_list equations.now) }
    ensures { OnOk result (nodes.new.now ≡ with_inputs 1 (equations_of_list equations.now) []) }
{
    let names = only(alloc, log, &Process::root())?;
    for i in 0..equations.len() {
        let number = i as u16 + 1;
        add_input(alloc, nodes, log, &names, number, &equations[i])?;
    }
    Ok(())
}

// Adds the node of an input equation, unless it is trivial.
fn add_input(
    alloc: Global,
    nodes: &mut Nodes,
    log: &NameLog,
    names: &ListLabels,
    number: u16,
    equation: &(Term, Term),
) -> Result<(), Memory>
    requires names { names.now ≡ root ∷ [] }
    requires room { length nodes.old.now < MAX_NODES }
    requires variables { length (variables_of_pair (tree_of equation.now.0) (tree_of equation.now.1)) ≤ 64 }
    ensures ok { OnOk result (nodes.new.now ≡ with_input (canonical_pair (tree_of equation.now.0) (tree_of equation.now.1)) number nodes.old.now) }
    ensures few { OnOk result (length nodes.new.now ≤ length nodes.old.now + 1) }
{
    match canonical(alloc, &equation.0, &equation.1)? {
        None => Ok(()),
        Some(pair) => match nodes.find_or_add(pair, Origin::Input(number)) {
            Ok(n) => {
                nodes.gains_equation(log, n, names)?;
                Ok(())
            }
            Err(NodeFault::Full) => unreachable!(),
            Err(NodeFault::Memory) => Err(Memory),
        },
    }
}
