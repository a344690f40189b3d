// Which work is due for a process by what it sees, and what it weighs.
ghost use Rattle.std.specs.Prelude.{◌≡◌, not, ◌&&◌, ◌||◌, ◌==◌, All, IfOk};
ghost use Rattle.std.specs.List.{list_any};
ghost use Rattle.kb_node.specs.declared.job.Job.TheVariants as jobs;
ghost use Rattle.mkb_model.specs.Jobs.{process_of};
ghost use Rattle.mkb_model.specs.Plain.{is_rule, weight, weight_by};
ghost use Rattle.mkb_model.specs.declared.settings.Selection.TheVariants as selections;
ghost use Rattle.mkb_model.specs.DueJobs.{is_work_due};
ghost use Rattle.mkb_rules.specs.Named.{IsRuleThere, IsThere};
ghost use Rattle.mkb_rules.specs.Roles.{roles_of};
ghost use Rattle.mkb_agenda.specs.Open.{is_open_to};
ghost use Rattle.mkb_agenda.specs.Looking.{HasJobThere, IsSeen, is_gained};

use crate::roles::{OpenTo, roles_by};
use kb_label::Process;
use kb_node::{Job, NodeId};
use kb_term::{Memory, RuleRef};
use mkb_model::Selection;
use mkb_rules::{KnownOn, Roles, State, is_ordered};

/// A process, where it stands among the living, and what is kept of it: its nodes, how it has each of the first ones, and its rules.
#[derive(Clone, Copy)]
pub(crate) struct Seen<'a> {
    pub(crate) state: &'a State,
    pub(crate) process: &'a Process,
    pub(crate) place: usize,
    pub(crate) nodes: &'a [NodeId],
    pub(crate) roles: &'a [Roles],
    pub(crate) rules: &'a [RuleRef],
}

// How many places are looked at before the process is searched for among all that live.
const NEAR: usize = 4;

// Where the process stands among the living, or would stand, where it is first looked for at some places from this one on.
fn place_from(state: &State, process: &Process, place: usize) -> usize {
    let living = state.log().processes();
    for near in place..place.saturating_add(NEAR) {
        match living.get(near) {
            Some(found) if *found == *process => return near,
            _ => {}
        }
    }
    match living.binary_search(process) {
        Ok(found) => found,
        Err(between) => between,
    }
}

impl<'a> Seen<'a> {
    /// The process, which is first looked for at a place among the living.
    ///
    /// # Errors
    ///
    /// Where what is kept of it is not there. It is for each living process, where memory allows.
    pub(crate) fn look(
        state: &'a State,
        process: &'a Process,
        place: usize,
    ) -> Result<Seen<'a>, Memory>
        ensures state { IfOk result (λ seen. seen.state.now ≡ state.now) }
        ensures process { IfOk result (λ seen. seen.process.now ≡ process.now) }
        ensures seen { IfOk result (λ seen. IsSeen seen) }
    {
        let place = place_from(state, process, place);
        match state.kept(place, process) {
            Some(kept) => Ok(Seen {
                state,
                process,
                place,
                nodes: kept.nodes,
                roles: kept.roles,
                rules: kept.rules,
            }),
            None => Err(Memory),
        }
    }

    /// Whether the work is due by what the process sees; closing is none of it. For a reducing it goes over the rules.
    pub(crate) fn is_due(&self, job: &Job) -> bool
        requires seen { IsSeen self.now }
        requires own { process_of job.now ≡ self.now.process.now }
        requires there { HasJobThere self.now.state.now job.now }
        ensures { result ≡ is_work_due self.now.state.now job.now }
    {
        match job {
            Job::Reduce(_, n) => self.may_reduce(&self.state.known_on(*n)),
            Job::Orient(_, n) => self.may_orient(*n),
            Job::Overlap(_, a, c) => self.may_overlap(*a, *c),
            Job::Close(_) => false,
        }
    }

    /// Whether the process has the node, and some rule of its is open to it.
    pub(crate) fn may_reduce(&self, known: &KnownOn) -> bool
        requires seen { IsSeen self.now }
        requires board { known.now.board ≡ self.now.state.now }
        requires there { IsThere self.now.state.now known.now.node.0 }
        ensures { result ≡ is_work_due self.now.state.now (jobs.Reduce self.now.process.now known.now.node) }
    {
        let roles = self.roles_of(known.node());
        roles.is_in_use() && self.has_open_rule(&OpenTo { known, roles })
    }

    // Whether the node is open to some rule of the process. The last rules, of which least is known, are asked about first.
    fn has_open_rule(&self, node: &OpenTo) -> bool
        ensures { result ≡ list_any (is_open_to node.now.known.now.board node.now.roles node.now.known.now.node.0) self.now.rules.now }
    {
        let count = self.rules.len();
        for i in 0..count {
            if node.is_open(self.rules[count - 1 - i]) {
                return true;
            }
        }
        false
    }

    /// Whether some of the rules is one of the process, and open to the node.
    pub(crate) fn is_gained(&self, rules: &[RuleRef], n: NodeId) -> bool
        requires seen { IsSeen self.now }
        requires node { IsThere self.now.state.now n.0 }
        requires there { All (IsRuleThere self.now.state.now) rules.now }
        ensures { result ≡ is_gained self.now.state.now self.now.process.now rules.now n.0 }
    {
        let known = self.state.known_on(n);
        let node = OpenTo {
            known: &known,
            roles: self.roles_of(n),
        };
        for i in 0..rules.len() {
            if self.is_gained_by(&node, rules[i]) {
                return true;
            }
        }
        false
    }

    // Whether the rule is one of the process, and the node is open to it.
    fn is_gained_by(&self, node: &OpenTo, rule: RuleRef) -> bool
        requires seen { IsSeen self.now }
        requires there { IsThere self.now.state.now rule.node }
        ensures { result ≡ (is_rule self.now.state.now self.now.process.now rule && is_open_to node.now.known.now.board node.now.roles node.now.known.now.node.0 rule) }
    {
        self.has_rule(rule) && node.is_open(rule)
    }

    // Whether the process has the node as an equation, and was not refused to orient it.
    fn may_orient(&self, n: NodeId) -> bool
        requires seen { IsSeen self.now }
        requires there { IsThere self.now.state.now n.0 }
        ensures { result ≡ is_work_due self.now.state.now (jobs.Orient self.now.process.now n) }
    {
        self.roles_of(n).equation && !self.state.is_refused(self.process, n)
    }

    // Whether the process has both rules, in this order, and has not overlapped them.
    fn may_overlap(&self, a: RuleRef, c: RuleRef) -> bool
        requires seen { IsSeen self.now }
        requires first { IsThere self.now.state.now a.node }
        requires second { IsThere self.now.state.now c.node }
        ensures { result ≡ is_work_due self.now.state.now (jobs.Overlap self.now.process.now a c) }
    {
        (self.has_rule(a) && self.has_rule(c))
            && (is_ordered(a, c) && !self.state.is_done(self.process, a, c))
    }

    // How the process has the node.
    fn roles_of(&self, n: NodeId) -> Roles
        requires seen { IsSeen self.now }
        requires there { IsThere self.now.state.now n.0 }
        ensures { result ≡ roles_of self.now.state.now self.now.process.now n.0 }
    {
        roles_by(self.state, self.roles, self.process, n)
    }

    // Whether the process has the rule.
    fn has_rule(&self, rule: RuleRef) -> bool
        requires seen { IsSeen self.now }
        requires there { IsThere self.now.state.now rule.node }
        ensures { result ≡ is_rule self.now.state.now self.now.process.now rule }
    {
        let roles = self.roles_of(NodeId(rule.node));
        if rule.dir == 0 {
            roles.first
        } else {
            roles.second
        }
    }
}

/// What the job weighs by the selection.
pub(crate) fn weight_of(state: &State, job: &Job) -> u32
    requires { HasJobThere state.now job.now }
    ensures { result ≡ weight state.now job.now }
{
    match state.settings().selection {
        Selection::Stated => 0,
        Selection::Size => size_of(state, job),
    }
}

// The sizes of the nodes that the job names, together.
fn size_of(state: &State, job: &Job) -> u32
    requires { HasJobThere state.now job.now }
    ensures { result ≡ weight_by selections.Size state.now job.now }
{
    let nodes = state.nodes();
    match job {
        Job::Reduce(_, n) => nodes.size(*n),
        Job::Orient(_, n) => nodes.size(*n),
        Job::Overlap(_, a, c) => nodes.size(NodeId(a.node)) + nodes.size(NodeId(c.node)),
        Job::Close(_) => 0,
    }
}
