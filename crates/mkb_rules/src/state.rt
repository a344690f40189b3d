// The state: the board without flight and journal.
ghost use Rattle.std.specs.Prelude.{◌≡◌, ◌<◌, [], ◌∷◌, length, map, not, IfOk, Some, IfSome, IsSome, IsTrue};
ghost use Rattle.std.specs.List.{list_any};
ghost use Rattle.kb_label.specs.Names.{add, has, is_empty, minus, name_eq};
ghost use Rattle.kb_node.specs.declared.node.LabelKind.TheVariants.{X};
ghost use Rattle.kb_node.specs.declared.node.NodeId.{NodeId as Numbered};
ghost use Rattle.mkb_model.specs.Jobs.{ref_le};
ghost use Rattle.mkb_model.specs.Plain.{GivenUp as OverFor, cost, equations_of, known, done_of, label, over_reason, is_over, certificate_of, constraints_of, rules_of};
ghost use Rattle.mkb_model.specs.Sleeping.{no_members};
ghost use Rattle.mkb_rules.specs.Parts.{plain_nodes};
ghost use Rattle.mkb_rules.specs.Constrained.{AreConstrained};
ghost use Rattle.mkb_rules.specs.Overlapped.{is_overlapped};
ghost use Rattle.mkb_rules.specs.Roles.{AreRolesOf, held_by, held_of, rules_by};
ghost use Rattle.mkb_rules.specs.Sizes.{is_dead_at, AreAlive};
ghost use Rattle.mkb_rules.specs.Named.{Lives};
ghost use Rattle.mkb_rules.specs.Kept.{plain_certificates, place_in};

use crate::facts::Facts;
use crate::known::KnownOn;
use crate::nodes::Nodes;
use crate::overlapped::OverlappedPairs;
use crate::role_row::RoleRow;
use crate::roles::Roles;
use crate::sleepers::Sleepers;
use kb_cert::Certificate;
use kb_label::{Labels, ListLabels, MAX_LIVING, NameLog, Process, Reason};
use kb_node::{LabelKind, NodeId, NodeTable, View};
use kb_term::{Found, Memory, Problem, RuleRef};
use mkb_model::Settings;
use std::alloc::Global;
use std::marker::Model;

/// For each reason the processes that gave up.
#[derive(Drop)]
pub(crate) struct GivenUp {
    pub(crate) nodes: ListLabels,
    pub(crate) processes: ListLabels,
    pub(crate) size: ListLabels,
    pub(crate) depth: ListLabels,
    pub(crate) variables: ListLabels,
    pub(crate) steps: ListLabels,
}

/// The order by which a process orients.
#[derive(Drop)]
pub(crate) struct Certified {
    pub(crate) name: Process,
    pub(crate) certificate: Certificate,
}

/// What is kept of a process: how it has each of the first nodes, the nodes that it has as an equation or as a rule, and its rules,
/// each in their order.
#[derive(Clone, Copy)]
pub struct Kept<'a> {
    pub roles: &'a [Roles],
    pub nodes: &'a [NodeId],
    pub rules: &'a [RuleRef],
}

/// The board without flight and journal. Contracts see it as the plain board with no ticket in flight.
#[derive(Drop)]
pub struct State {
    pub(crate) problem: Problem,
    pub(crate) settings: Settings,
    pub(crate) log: NameLog,
    pub(crate) nodes: Nodes,
    pub(crate) done: OverlappedPairs,
    pub(crate) facts: Facts,
    pub(crate) closed: ListLabels,
    pub(crate) over: GivenUp,
    pub(crate) asleep: Sleepers,
    pub(crate) commits: u32,
    pub(crate) certificates: Vec<Certified>,
}

impl Model for State {
    ghost use Rattle.std.specs.Prelude.{map};
    ghost use Rattle.std.specs.Coded.{codes};
    ghost use Rattle.kb_term.specs.Coding.{coded_pair, coded_problem, coded_tree};
    ghost use Rattle.mkb_model.specs.Plain.{Plain};
    ghost use Rattle.mkb_rules.specs.Parts.{board_of, given_up};
    ghost use Rattle.mkb_rules.specs.declared.state.Certified.{Certified};

    ghost Value = { Plain };

    ghost coded = { Prim.hlevel (codes, coded_pair, coded_problem, coded_tree) };

    ghost view = { λ s. board_of s.problem s.settings s.log s.nodes.now
        s.done s.facts s.closed
        (given_up s.over.nodes s.over.processes s.over.size s.over.depth s.over.variables s.over.steps)
        s.asleep s.commits
        (map (λ (c : Certified). record { name = c.name; certificate = c.certificate }) s.certificates.items) };
}

impl State {
    /// How many commits were made.
    pub fn commits(&self) -> u32
        ensures { result ≡ self.now.commits }
    {
        self.commits
    }

    /// The settings of the run.
    pub fn settings(&self) -> Settings
        ensures { result ≡ self.now.settings }
    {
        self.settings
    }

    /// The problem.
    pub fn problem(&self) -> &Problem
        ensures { result.now ≡ self.now.problem }
    {
        &self.problem
    }

    /// The processes that live.
    pub fn log(&self) -> &NameLog
        ensures { result.now ≡ self.now.living }
    {
        &self.log
    }

    /// The table of nodes.
    pub fn nodes(&self) -> &NodeTable<ListLabels>
        ensures { plain_nodes result.now ≡ self.now.nodes }
    {
        self.nodes.table()
    }

    /// What is known of one side of a node and a rule; none where no fact is known.
    pub fn known(&self, n: NodeId, side: u8, rule: RuleRef) -> Option<Found>
        ensures { result ≡ known self.now n.0 side rule }
    {
        self.known_on(n).side(side, rule)
    }

    /// What is known of the two sides of a node. It takes constant time.
    pub fn known_on(&self, n: NodeId) -> KnownOn<'_>
        ensures { result ≡ record { board = self.now; node = n } }
    {
        KnownOn::new(self, n)
    }

    /// Whether two rules have been overlapped for a process, in whichever order they are named.
    pub fn is_done(&self, p: &Process, a: RuleRef, b: RuleRef) -> bool
        ensures { result ≡ is_overlapped self.now p.now a b }
    {
        if is_ordered(a, b) {
            self.is_done_in_order(p, a, b)
        } else {
            self.is_done_in_order(p, b, a)
        }
    }

    // Whether the first rule has been overlapped with the second for a process.
    fn is_done_in_order(&self, p: &Process, a: RuleRef, b: RuleRef) -> bool
        ensures { result ≡ has (done_of self.now a b) p.now }
    {
        match self.done.names(a, b) {
            Some(names) => names.has(&self.log, p),
            None => false,
        }
    }

    /// Whether a process can't orient a node.
    pub fn is_refused(&self, p: &Process, n: NodeId) -> bool
        requires { n.0 < length self.now.nodes }
        ensures { result ≡ has (label self.now n.0 X) p.now }
    {
        self.nodes.table().label(n, LabelKind::X).has(&self.log, p)
    }

    /// Whether no process has the node as an equation or as a rule. It takes constant time.
    pub fn is_dead(&self, n: NodeId) -> bool
        requires { n.0 < length self.now.nodes }
        ensures { result ≡ is_dead_at self.now.nodes n.0 }
    {
        self.nodes.is_dead(&self.log, n)
    }

    /// The nodes that some process has as an equation or as a rule, in their order, and perhaps some that nobody has; none where
    /// that isn't kept. It is kept where memory allows, and takes constant time.
    pub fn alive(&self) -> Option<&[NodeId]>
        ensures { IfSome result (λ l. AreAlive self.now.nodes l.now) }
    {
        self.nodes.alive()
    }

    /// The nodes in which some process has a constraint, in their order, and perhaps some in which nobody has one; none where that
    /// isn't kept. It is kept where memory allows, and takes constant time.
    pub fn constrained(&self) -> Option<&[NodeId]>
        ensures { IfSome result (λ l. AreConstrained self.now.nodes l.now) }
    {
        self.nodes.constrained()
    }

    /// What the process at this place among the living costs, where that is kept. It is for each living process, where memory
    /// allows.
    pub fn kept_cost(&self, place: usize, p: &Process) -> Option<u32>
        ensures { IfSome result (λ c. c ≡ cost self.now p.now) }
    {
        self.nodes.sizes(place, p)?.cost(self.settings.selection)
    }

    /// Whether the process at this place among the living has an equation, where that is kept. It is for each living process, where
    /// memory allows, and takes constant time.
    pub fn has_equation(&self, place: usize, p: &Process) -> Option<bool>
        ensures { IfSome result (λ has. has ≡ not (no_members (equations_of self.now p.now))) }
    {
        let row = self.nodes.row(place, p)?;
        if self.is_whole(row) {
            Some(row.has_equation())
        } else {
            None
        }
    }

    /// How a process has each of the first nodes, where that is kept; else of none. It is kept for each living process and for all
    /// nodes, where memory allows.
    pub fn roles(&self, p: &Process) -> &[Roles]
        ensures { AreRolesOf self.now.nodes p.now result.now }
    {
        match self.row(p) {
            Some(row) => row.as_slice(),
            None => &[],
        }
    }

    /// The nodes that a process has as an equation or as a rule, in their order; none where that isn't kept. It is kept for each
    /// living process, where memory allows.
    pub fn held(&self, p: &Process) -> Option<&[NodeId]>
        ensures { IfSome result (λ l. map (λ (n : Numbered). n.0) l.now ≡ held_of self.now p.now) }
    {
        self.whole_row(p)?.held()
    }

    /// The rules of a process, by node, then direction; none where that isn't kept. It is kept for each living process, where memory
    /// allows.
    pub fn rules(&self, p: &Process) -> Option<&[RuleRef]>
        ensures { IfSome result (λ l. l.now ≡ rules_of self.now p.now) }
    {
        self.whole_row(p)?.rules()
    }

    /// What is kept of the process at this place among the living, where all of it is kept at the place. It is for each living
    /// process, where memory allows, and takes constant time.
    pub fn kept(&self, place: usize, p: &Process) -> Option<Kept>
        ensures roles { IfSome result (λ k. AreRolesOf self.now.nodes p.now k.roles.now) }
        ensures nodes { IfSome result (λ k. map (λ (n : Numbered). n.0) k.nodes.now ≡ held_of self.now p.now) }
        ensures rules { IfSome result (λ k. k.rules.now ≡ rules_of self.now p.now) }
    {
        let row = self.nodes.row(place, p)?;
        if !self.is_whole(row) {
            return None;
        }
        let roles = row.as_slice();
        let nodes = row.held()?;
        let rules = row.rules()?;
        Some(Kept {
            roles,
            nodes,
            rules,
        })
    }

    // How a process has each of the first nodes, where that is kept.
    fn row(&self, p: &Process) -> Option<&RoleRow>
        ensures { IfSome result (λ row. AreRolesOf self.now.nodes p.now row.now) }
    {
        match self.log.processes().binary_search(p) {
            Ok(place) => self.nodes.row(place, p),
            Err(_) => None,
        }
    }

    // How a process has all nodes, where that is kept.
    fn whole_row(&self, p: &Process) -> Option<&RoleRow>
        ensures held { IfSome result (λ row. held_by row.now ≡ held_of self.now p.now) }
        ensures rules { IfSome result (λ row. rules_by row.now ≡ rules_of self.now p.now) }
    {
        let row = self.row(p)?;
        if self.is_whole(row) { Some(row) } else { None }
    }

    // Whether it is how a process has all nodes.
    fn is_whole(&self, row: &RoleRow) -> bool
        ensures { IsTrue result → length row.now ≡ length self.now.nodes }
    {
        row.as_slice().len() == self.nodes.len() as usize
    }

    /// Whether a process is closed.
    pub fn is_closed(&self, p: &Process) -> bool
        ensures { result ≡ has self.now.closed p.now }
    {
        self.closed.has(&self.log, p)
    }

    /// Whether a process is closed. The search begins at a place, from 0, and leaves the place behind the process, so that of processes
    /// that are asked for in their order each is found in constant time where most of them are closed.
    pub fn is_closed_from(&self, p: &Process, place: &mut usize) -> bool
        ensures { result ≡ has self.now.closed p.now }
    {
        self.closed.has_from(p, place)
    }

    /// Whether some process is closed. It takes constant time.
    pub fn has_closed(&self) -> bool
        ensures { result ≡ not (is_empty self.now.closed) }
    {
        !self.closed.is_empty(&self.log)
    }

    /// Whether some process gave up. It takes constant time.
    pub fn has_over(&self) -> bool
        ensures { result ≡ list_any (λ (g : OverFor). not (is_empty g.names)) self.now.over }
    {
        self.over.has_any(&self.log)
    }

    /// Why a process gave up; none where it did not.
    pub fn over(&self, p: &Process) -> Option<Reason>
        ensures { result ≡ over_reason self.now p.now }
    {
        self.over.reason_of(&self.log, p)
    }

    /// Whether a process gave up. It takes no memory.
    pub fn is_over(&self, p: &Process) -> bool
        ensures { result ≡ is_over self.now p.now }
    {
        self.over(p).is_some()
    }

    /// Whether the label of this kind of a node names the process. It takes no memory.
    pub fn has_label(&self, p: &Process, n: NodeId, kind: LabelKind) -> bool
        requires { n.0 < length self.now.nodes }
        ensures { result ≡ has (label self.now n.0 kind) p.now }
    {
        self.nodes().label(n, kind).has(&self.log, p)
    }

    /// What a process sees of the nodes.
    ///
    /// # Errors
    ///
    /// Want of memory.
    #[tactic(auto, using(crate::proofs::Viewed::rules_viewed, crate::proofs::Viewed::constraints_viewed, crate::proofs::Viewed::equations_viewed))]
    pub fn view_of(&self, p: &Process) -> Result<View, Memory>
        ensures equations { IfOk result (λ view. map (λ (n : Numbered). n.0) view.equations ≡ equations_of self.now p.now) }
        ensures rules { IfOk result (λ view. view.rules ≡ rules_of self.now p.now) }
        ensures constraints { IfOk result (λ view. view.constraints ≡ constraints_of self.now p.now) }
    {
        self.nodes().view_of(&self.log, p)
    }

    /// Whether a process is asleep.
    pub fn is_asleep(&self, p: &Process) -> bool
        ensures { result ≡ has self.now.asleep p.now }
    {
        self.asleep.has(p)
    }

    /// Whether a process is asleep. The search begins at a place, from 0, and leaves the place behind the process, so that of processes
    /// that are asked for in their order each is found in constant time where most of them are asleep.
    pub fn is_asleep_from(&self, p: &Process, place: &mut usize) -> bool
        ensures { result ≡ has self.now.asleep p.now }
    {
        self.asleep.has_from(p, place)
    }

    /// The processes that are asleep, in their order.
    pub fn sleepers(&self) -> &[Process]
        ensures { result.now ≡ self.now.asleep }
    {
        self.asleep.as_slice()
    }

    /// A process falls asleep. It takes no memory.
    pub fn put_to_sleep(&mut self, p: &Process)
        requires { length self.old.asleep < MAX_LIVING }
        ensures { self.new ≡ record self.old { asleep = add p.now self.old.asleep } }
    {
        self.asleep.add(p).unwrap();
    }

    /// A process wakes. It takes no memory.
    pub fn wake(&mut self, p: &Process)
        ensures { self.new ≡ record self.old { asleep = minus self.old.asleep (p.now ∷ []) } }
    {
        self.asleep.remove(p);
    }

    /// The order by which a living process orients.
    pub fn certificate(&self, p: &Process) -> &Certificate
        requires lives { Lives self.now p.now }
        requires ordered { IsSome (certificate_of self.now p.now) }
        ensures { certificate_of self.now p.now ≡ Some result.now }
    {
        let place = certificate_place(&self.certificates, p);
        &self.certificates[place].certificate
    }
}

impl GivenUp {
    ghost use Rattle.std.specs.Prelude.{◌≡◌};
    ghost use Rattle.mkb_model.specs.Plain.{nobody_over, over_in};
    ghost use Rattle.mkb_rules.specs.Over.{lists_of};

    /// Nobody gave up. It takes no memory.
    pub(crate) fn nobody(alloc: Global) -> GivenUp
        ensures { lists_of result ≡ nobody_over }
    {
        GivenUp {
            nodes: ListLabels::new(alloc),
            processes: ListLabels::new(alloc),
            size: ListLabels::new(alloc),
            depth: ListLabels::new(alloc),
            variables: ListLabels::new(alloc),
            steps: ListLabels::new(alloc),
        }
    }

    /// Whether some process gave up for one of the six reasons. It takes constant time.
    pub(crate) fn has_any(&self, log: &NameLog) -> bool
        ensures { result ≡ list_any (λ (g : OverFor). not (is_empty g.names)) (lists_of self.now) }
    {
        !self.nodes.is_empty(log)
            || !self.processes.is_empty(log)
            || !self.size.is_empty(log)
            || !self.depth.is_empty(log)
            || !self.variables.is_empty(log)
            || !self.steps.is_empty(log)
    }

    /// The reason for which a process gave up, the first of the six. It takes constant time where nobody gave up.
    pub(crate) fn reason_of(&self, log: &NameLog, p: &Process) -> Option<Reason>
        ensures { result ≡ over_in (lists_of self.now) p.now }
    {
        if !self.has_any(log) {
            return None;
        }
        if self.nodes.has(log, p) {
            return Some(Reason::Nodes);
        }
        if self.processes.has(log, p) {
            return Some(Reason::Processes);
        }
        if self.size.has(log, p) {
            return Some(Reason::Size);
        }
        if self.depth.has(log, p) {
            return Some(Reason::Depth);
        }
        if self.variables.has(log, p) {
            return Some(Reason::Variables);
        }
        if self.steps.has(log, p) {
            return Some(Reason::Steps);
        }
        None
    }
}

/// Whether the first rule does not come after the second, by node, then direction.
pub fn is_ordered(a: RuleRef, b: RuleRef) -> bool
    ensures { result ≡ ref_le a b }
{
    a.node < b.node || (a.node == b.node && a.dir <= b.dir)
}

// Whether the order is the process's.
fn is_named(order: &Certified, p: &Process) -> bool
    ensures { result ≡ name_eq order.now.name p.now }
{
    order.name == *p
}

/// The number of the first order that is kept for the process; how many there are where none is.
pub(crate) fn certificate_place(certificates: &[Certified], p: &Process) -> usize
    ensures { result ≡ place_in (plain_certificates certificates.now) p.now }
{
    for i in 0..certificates.len() {
        if is_named(&certificates[i], p) {
            return i;
        }
    }
    certificates.len()
}
