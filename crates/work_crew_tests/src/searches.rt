// What workers find of a family of orders, and share.
ghost use Rattle.std.specs.Prelude.{◌≡◌, ◌≤◌, [], length, IsTrue};
ghost use Rattle.kb_linear.specs.Limits.{IsMeasurable, AreMeasurable};
ghost use Rattle.kb_term.specs.View.{tree_of};

use kb_cert::{Certificate, Family, cert_text, search};
use kb_io::{Gate, HoldGate, Moment, OpenGate};
use kb_jobs::{Searcher, work_by};
use kb_syntax::{parse_problem, spelled_problems_are_within_limits};
use kb_term::{Memory, Problem, Rule, Signature, Term, has_variables_below, term_limit};
use mkb_board::{Board, Taken};
use mkb_model::Settings;
use std::alloc::Global;
use std::mem::drop;
use std::process::Abort;
use std::sync::Wait;
use std::sync::atomic::AtomicUsize;
use std::sync::atomic::Ordering::SeqCst;
use std::time::Instant;
use work_crew::{CertPool, has_taken, work_together_by};

/// Searches anew, and counts how often.
#[derive(Drop)]
struct Counted {
    alloc: Global,
    searches: AtomicUsize,
}

impl Counted {
    fn new(alloc: Global) -> Counted {
        Counted {
            alloc,
            searches: AtomicUsize::new(0),
        }
    }

    fn count(&self) -> usize {
        self.searches.load(SeqCst)
    }
}

impl Searcher for Counted {
    fn search<R: Wait>(
        &self,
        _rt: &R,
        family: Family,
        sig: &Signature,
        rules: &[Rule],
    ) -> Result<Option<Certificate>, Memory> {
        self.searches.fetch_add(1, SeqCst);
        search(self.alloc, family, sig, rules)
    }
}

/// Searches anew, but holds the first search of two rules with one from the first symbol until one from the second
/// symbol is begun, and the other way round.
#[derive(Drop)]
struct Meeting {
    alloc: Global,
    gate: HoldGate,
}

impl Searcher for Meeting {
    fn search<R: Wait>(
        &self,
        _rt: &R,
        family: Family,
        sig: &Signature,
        rules: &[Rule],
    ) -> Result<Option<Certificate>, Memory> {
        if rules.len() == 2 {
            if leads_from(rules, 0) {
                self.gate.pass(&moment_of(1), 0);
            } else if leads_from(rules, 1) {
                self.gate.pass(&moment_of(2), 0);
            }
        }
        search(self.alloc, family, sig, rules)
    }
}

/// The moment at which the ticket with this number is taken, on a board of one process.
fn moment_of(ticket: u64) -> Moment {
    Moment {
        ticket,
        commits: 0,
        nodes: 0,
        living: 1,
        awake: 1,
        cost: None,
    }
}

/// Whether a rule's left side is this constant.
fn leads_from(rules: &[Rule], constant: u8) -> bool {
    for rule in rules {
        match rule.left() {
            Term::App(f, _) if f.0 == constant => return true,
            _ => {}
        }
    }
    false
}

fn problem_of(rt: &impl Abort, alloc: Global, text: &str) -> Problem {
    match parse_problem(alloc, text.as_bytes()) {
        Ok(problem) => problem,
        Err(_) => panic!(rt; "no problem"),
    }
}

fn is_small(t: &Term) -> bool
    ensures { IsTrue result → IsMeasurable (tree_of t.now) }
{
    term_limit(t).is_none() && has_variables_below(64, t)
}

fn push_rule(rt: &impl Abort, rules: &mut Vec<Rule>, left: &Term, right: &Term)
    requires { AreMeasurable rules.old.items }
    ensures { AreMeasurable rules.new.items }
{
    if !is_small(left) || !is_small(right) {
        panic!(rt; "a large rule");
    }
    let left = left.clone().expect(rt, "memory");
    let right = right.clone().expect(rt, "memory");
    rules.push(Rule::new(left, right)).expect(rt, "memory");
}

/// So many equations of the problem, behind as many as are passed over, as rules from left to right.
fn rules_of(
    rt: &impl Abort,
    alloc: Global,
    problem: &Problem,
    skip: usize,
    count: usize,
) -> Vec<Rule>
    ensures { AreMeasurable result.items }
{
    let mut rules = Vec::new(alloc);
    for (left, right) in problem.equations().iter().skip(skip).take(count) {
        push_rule(rt, &mut rules, left, right);
    }
    rules
}

fn signature_of(rt: &impl Abort, problem: &Problem) -> Signature
    ensures { length result ≤ 24 }
{
    let signature = problem.signature().clone().expect(rt, "memory");
    if signature.count() > 24 {
        panic!(rt; "too many symbols");
    }
    signature
}

/// The text of the first member by the pool; empty where there is none.
fn asked<R: Abort + Wait>(
    rt: &R,
    pool: &CertPool,
    sig: &Signature,
    rules: &[Rule],
    miss: &Counted,
) -> Vec<u8>
    requires few { length sig.now ≤ 24 }
    requires measurable { AreMeasurable rules.now }
{
    match pool.search_by(rt, Family::Stated, sig, rules, miss) {
        Ok(Some(c)) => cert_text(miss.alloc, &c, sig).expect(rt, "memory"),
        Ok(None) => Vec::new(miss.alloc),
        Err(Memory) => panic!(rt; "memory"),
    }
}

/// The board of the problem that the text spells, before any entry.
fn started(rt: &impl Abort, alloc: Global, text: &str) -> Board
    ensures { result.journal ≡ [] }
{
    spelled_problems_are_within_limits();
    let problem = match parse_problem(alloc, text.as_bytes()) {
        Ok(problem) => problem,
        Err(_) => panic!(rt; "no problem"),
    };
    Board::start(alloc, problem, Settings::stated(20_000)).expect(rt, "memory")
}

#[test]
fn the_pool_asks_once_for_each_answer(rt: HostRuntime) {
    let alloc = rt.alloc();
    let text = "(VAR x)(RULES f(f(x)) == g(x) g(f(x)) == f(g(x)) x == f(x) f(f(x)) == g(x))";
    let problem = problem_of(&rt, alloc, text);
    let sig = signature_of(&rt, &problem);
    let pool = CertPool::new(alloc).expect(&rt, "memory");
    let miss = Counted::new(alloc);
    let ordered = rules_of(&rt, alloc, &problem, 0, 2);
    assert!(rt;
        asked(&rt, &pool, &sig, &ordered, &miss).as_slice() == b"LINEAR 1,2 0,2".as_slice()
    );
    assert!(rt; miss.count() == 1);
    assert!(rt;
        asked(&rt, &pool, &sig, &ordered, &miss).as_slice() == b"LINEAR 1,2 0,2".as_slice()
    );
    assert!(rt; miss.count() == 1);
    let growing = rules_of(&rt, alloc, &problem, 2, 1);
    assert!(rt; asked(&rt, &pool, &sig, &growing, &miss).len() == 0);
    assert!(rt; miss.count() == 2);
    let more = rules_of(&rt, alloc, &problem, 2, 2);
    assert!(rt; asked(&rt, &pool, &sig, &more, &miss).len() == 0);
    assert!(rt; miss.count() == 2);
}

#[test]
fn a_first_member_that_orders_one_rule_more_is_not_sought_again(rt: HostRuntime) {
    let alloc = rt.alloc();
    let text = "(VAR x)(RULES f(f(x)) == g(x) g(f(x)) == f(g(x)) f(f(f(x))) == f(g(x)))";
    let problem = problem_of(&rt, alloc, text);
    let sig = signature_of(&rt, &problem);
    let pool = CertPool::new(alloc).expect(&rt, "memory");
    let miss = Counted::new(alloc);
    let two = rules_of(&rt, alloc, &problem, 0, 2);
    assert!(rt; asked(&rt, &pool, &sig, &two, &miss).as_slice() == b"LINEAR 1,2 0,2".as_slice());
    let three = rules_of(&rt, alloc, &problem, 0, 3);
    assert!(rt; asked(&rt, &pool, &sig, &three, &miss).as_slice() == b"LINEAR 1,2 0,2".as_slice());
    assert!(rt; miss.count() == 1);
}

#[test]
fn an_orient_asks_for_the_direction_that_the_order_in_force_does_not_order(rt: HostRuntime) {
    let alloc = rt.alloc();
    let mut board = started(&rt, alloc, "(RULES a == b)");
    let by = Counted::new(alloc);
    match board.take(alloc, 1).expect(&rt, "memory") {
        Taken::Job(_, snapshot) => {
            let worked = work_by(&rt, alloc, &snapshot, &by);
            assert!(rt; worked.is_ok());
            drop(worked);
            drop(snapshot);
        }
        _ => panic!(&rt; "no job"),
    }
    assert!(rt; by.count() == 1);
    drop(board);
}

#[test]
fn two_workers_search_at_once(rt: HostRuntime) {
    let board = started(&rt, rt.alloc(), "(RULES a == b c == d)");
    let by = Meeting {
        alloc: rt.alloc(),
        gate: HoldGate::new(1, 2),
    };
    let crew = work_together_by(&rt, rt.alloc(), board, 2, &OpenGate, &by);
    assert!(rt; by.gate.met());
    assert!(rt; crew.board.verdict().is_some());
    drop(crew);
}

#[test]
fn an_hour_has_not_passed_since_now(rt: HostRuntime) {
    let now = Instant::now(&rt).ok();
    assert!(rt; has_taken(&rt, &now, 0) && !has_taken(&rt, &now, 3_600_000_000));
    assert!(rt; has_taken(&rt, &None, 100));
}
