// A small state with its agenda, and commits that both make.
ghost use Rattle.kb_label.specs.Names.{Name};
ghost use Rattle.kb_term.specs.Signature.{IsWithinLimits};
ghost use Rattle.mkb_model.specs.Plain.{Plain};
ghost use Rattle.mkb_rules.specs.Applicable.{IsApplicable};
ghost use Rattle.mkb_rules.specs.Applying.{HasBudget};
ghost use Rattle.mkb_rules.specs.Named.{IsThere, Lives};
ghost use Rattle.mkb_agenda.specs.Following.{HasNodesOf};

use kb_cert::Certificate;
use kb_label::{Living, Process};
use kb_lpo::Precedence;
use kb_node::{Fact, Job, LimitCause, NodeId};
use kb_syntax::{parse_problem, spelled_problems_are_within_limits};
use kb_term::{Found, Problem, RuleRef, Symbol, Term, Terms};
use mkb_agenda::{Commit, agenda_of, follow};
use mkb_model::{FactList, Proposed, Settings};
use mkb_pick::Agenda;
use mkb_rules::{Applied, State};
use rules_in_use::RulesInUse;
use std::alloc::Global;
use std::mem::drop;
use std::process::Abort;

/// The problem that the text spells.
fn problem(rt: &impl Abort, alloc: Global, text: &[u8]) -> Problem
    ensures { IsWithinLimits result }
{
    spelled_problems_are_within_limits();
    match parse_problem(alloc, text) {
        Ok(problem) => problem,
        Err(_) => panic!(rt; "no problem"),
    }
}

/// The state of the problem before any commit, with a budget of 100 commits.
pub(crate) fn opened(rt: &impl Abort, alloc: Global, text: &[u8]) -> State {
    let problem = problem(rt, alloc, text);
    State::start(alloc, problem, Settings::stated(100)).expect(rt, "memory")
}

/// The agenda of the state, made anew.
pub(crate) fn listed(rt: &impl Abort, alloc: Global, state: &State) -> Agenda {
    agenda_of(alloc, state).expect(rt, "memory")
}

// There is budget for one commit more.
fn ready(rt: &impl Abort, state: &State)
    ensures { HasBudget state.now }
{
    assert!(rt; state.commits() < state.settings().budget);
}

// There is a node with this number.
fn there(rt: &impl Abort, state: &State, n: u16)
    ensures { IsThere state.now n }
{
    assert!(rt; u32::from(n) < state.nodes().len());
}

// The process lives.
fn living(rt: &impl Abort, state: &State, p: &Process)
    ensures { Lives state.now p.now }
{
    assert!(rt; state.log().is_living(p));
}

/// The path order in which the first symbol is above the second.
fn above(rt: &impl Abort, alloc: Global, first: u8, second: u8) -> Certificate {
    let mut symbols = Vec::new(alloc);
    symbols.push(Symbol(first)).expect(rt, "memory");
    symbols.push(Symbol(second)).expect(rt, "memory");
    Certificate::Lpo(Precedence::new(symbols))
}

// The agenda follows a commit that acted on the process.
fn go_along(
    rt: &impl Abort,
    alloc: Global,
    state: &State,
    agenda: &mut Agenda,
    made: (&Proposed, Applied, Process),
)
    requires { HasNodesOf state.now made.0.now }
{
    let names = [made.2];
    let commit = Commit {
        proposal: made.0,
        applied: made.1,
        target: None,
        names: &names,
    };
    follow(alloc, agenda, state, &commit).expect(rt, "memory");
}

// The process turns the node into a rule.
fn one(p: &Process, n: u16, cert: Certificate) -> Proposed
    ensures applicable { (b : Plain) → IsThere b n → Lives b p.now → IsApplicable b result }
    ensures nodes { (b : Plain) → IsThere b n → HasNodesOf b result }
{
    Proposed::One {
        process: *p,
        node: NodeId(n),
        dir: 0,
        cert,
    }
}

/// The process turns the node into the rule from side 0 to side 1.
pub(crate) fn orient(
    rt: &impl Abort,
    alloc: Global,
    state: &mut State,
    agenda: &mut Agenda,
    (p, n): (&Process, u16),
) {
    let proposal = one(p, n, above(rt, alloc, 0, 1));
    ready(rt, state);
    there(rt, state, n);
    living(rt, state, p);
    let applied = state.apply(alloc, &proposal).expect(rt, "memory").applied;
    there(rt, state, n);
    go_along(rt, alloc, state, agenda, (&proposal, applied, *p));
    drop(proposal);
}

/// The same, followed by the index of the rules in use.
pub(crate) fn orient_in_index(
    rt: &impl Abort,
    alloc: Global,
    state: &mut State,
    rules: &mut RulesInUse,
    (p, n): (&Process, u16),
) {
    let proposal = one(p, n, above(rt, alloc, 0, 1));
    ready(rt, state);
    there(rt, state, n);
    living(rt, state, p);
    let applied = state.apply(alloc, &proposal).expect(rt, "memory").applied;
    there(rt, state, n);
    let names = [*p];
    let commit = Commit {
        proposal: &proposal,
        applied,
        target: None,
        names: &names,
    };
    rules.follow(state, &commit).expect(rt, "memory");
    drop(proposal);
}

/// How many rules the index finds at the symbol applied to nothing, and at symbol 0 applied to symbol 1.
pub(crate) fn found(rt: &impl Abort, alloc: Global, rules: &RulesInUse, symbol: u8) -> usize {
    let bare = Term::App(Symbol(symbol), Terms::new(Vec::new(alloc)));
    let mut items = Vec::new(alloc);
    let inner = Term::App(Symbol(1), Terms::new(Vec::new(alloc)));
    items.push(inner).expect(rt, "memory");
    let applied = Term::App(Symbol(0), Terms::new(items));
    let at_bare = rules.index().candidates(&bare).expect(rt, "memory");
    let at_applied = rules.index().candidates(&applied).expect(rt, "memory");
    let count = at_bare.len().saturating_add(at_applied.len());
    drop(bare);
    drop(applied);
    count
}

// The process forks at the node.
fn both(p: &Process, n: u16, cert0: Certificate, cert1: Certificate) -> Proposed
    ensures applicable { (b : Plain) → IsThere b n → Lives b p.now → IsApplicable b result }
    ensures nodes { (b : Plain) → IsThere b n → HasNodesOf b result }
{
    Proposed::Both {
        process: *p,
        node: NodeId(n),
        cert0,
        cert1,
    }
}

/// The process forks at the node: its left child has the rule from side 0 to side 1, its right one the other.
pub(crate) fn fork(
    rt: &impl Abort,
    alloc: Global,
    state: &mut State,
    agenda: &mut Agenda,
    (p, n): (&Process, u16),
) {
    let proposal = both(p, n, above(rt, alloc, 0, 1), above(rt, alloc, 1, 0));
    ready(rt, state);
    there(rt, state, n);
    living(rt, state, p);
    let applied = state.apply(alloc, &proposal).expect(rt, "memory").applied;
    there(rt, state, n);
    go_along(rt, alloc, state, agenda, (&proposal, applied, *p));
    drop(proposal);
}

/// The process refuses the node.
pub(crate) fn refuse(
    rt: &impl Abort,
    alloc: Global,
    state: &mut State,
    agenda: &mut Agenda,
    (p, n): (&Process, u16),
) {
    let proposal = Proposed::Refuse {
        process: *p,
        node: NodeId(n),
    };
    ready(rt, state);
    there(rt, state, n);
    living(rt, state, p);
    let applied = state.apply(alloc, &proposal).expect(rt, "memory").applied;
    there(rt, state, n);
    go_along(rt, alloc, state, agenda, (&proposal, applied, *p));
    drop(proposal);
}

/// The process is closed.
pub(crate) fn close(
    rt: &impl Abort,
    alloc: Global,
    state: &mut State,
    agenda: &mut Agenda,
    p: &Process,
) {
    let proposal = Proposed::Closed { process: *p };
    ready(rt, state);
    living(rt, state, p);
    let applied = state.apply(alloc, &proposal).expect(rt, "memory").applied;
    go_along(rt, alloc, state, agenda, (&proposal, applied, *p));
    drop(proposal);
}

/// The process comes to a limit at its closing.
pub(crate) fn give_up(
    rt: &impl Abort,
    alloc: Global,
    state: &mut State,
    agenda: &mut Agenda,
    p: &Process,
) {
    let proposal = Proposed::Limit {
        job: Job::Close(*p),
        cause: LimitCause {
            redex: None,
            reason: kb_label::Reason::Steps,
        },
    };
    ready(rt, state);
    living(rt, state, p);
    let applied = state.apply(alloc, &proposal).expect(rt, "memory").applied;
    go_along(rt, alloc, state, agenda, (&proposal, applied, *p));
    drop(proposal);
}

// That rule 0 has no redex on this side of the node.
fn none_on(node: u16, side: u8) -> Fact {
    Fact {
        node: NodeId(node),
        side,
        rule: RuleRef { node: 0, dir: 0 },
        found: Found::No,
    }
}

/// That the rule of node 0 has no redex on either side of the node is noted.
pub(crate) fn know(
    rt: &impl Abort,
    alloc: Global,
    state: &mut State,
    agenda: &mut Agenda,
    node: u16,
) {
    let mut facts = Vec::new(alloc);
    facts.push(none_on(node, 0)).expect(rt, "memory");
    facts.push(none_on(node, 1)).expect(rt, "memory");
    let proposal = Proposed::Facts(FactList::new(facts));
    ready(rt, state);
    let applied = state.apply(alloc, &proposal).expect(rt, "memory").applied;
    go_along(
        rt,
        alloc,
        state,
        agenda,
        (&proposal, applied, Process::root()),
    );
    drop(proposal);
}

// Takes the next job off both agendas, which is the same; whether there is one.
fn take_next(rt: &impl Abort, anew: &mut Agenda, agenda: &mut Agenda) -> bool {
    let next = anew.next(&[]);
    assert!(rt; agenda.next(&[]) == next);
    match next {
        Some(job) => {
            assert!(rt; anew.remove(&job, 0));
            assert!(rt; agenda.remove(&job, 0));
            true
        }
        None => false,
    }
}

// Takes the next jobs off both agendas, at most 100; how many.
fn take_all(rt: &impl Abort, anew: &mut Agenda, agenda: &mut Agenda) -> u32 {
    for i in 0..100u32 {
        if !take_next(rt, anew, agenda) {
            return i;
        }
    }
    100
}

/// Takes the next jobs off the agenda and off one that is made anew of the state, until there is none: they are the same. How many
/// there were.
pub(crate) fn drain(rt: &impl Abort, alloc: Global, state: &State, agenda: &mut Agenda) -> u32 {
    let mut anew = listed(rt, alloc, state);
    let count = take_all(rt, &mut anew, agenda);
    drop(anew);
    count
}
