// Workers of small boards. A board is dropped by a call: to let it go at the end of a test makes the test's proof slow.
ghost use Rattle.std.specs.Prelude.{◌≡◌, []};

use kb_io::{HoldGate, OpenGate};
use kb_label::Verdict;
use kb_syntax::{parse_problem, spelled_problems_are_within_limits};
use mkb_board::Board;
use mkb_model::Settings;
use std::alloc::Global;
use std::mem::drop;
use std::process::Abort;
use work_crew::{work_alone, work_together};

/// The board of the problem that the text spells, before any entry.
fn started(rt: &impl Abort, alloc: Global, text: &str, budget: u32) -> Board
    ensures { result.journal ≡ [] }
{
    spelled_problems_are_within_limits();
    let problem = match parse_problem(alloc, text.as_bytes()) {
        Ok(problem) => problem,
        Err(_) => panic!(rt; "no problem"),
    };
    Board::start(alloc, problem, Settings::stated(budget)).expect(rt, "memory")
}

/// The board of the problem that the text spells, worked on by one worker until a verdict stands.
fn finished(rt: &impl Abort, alloc: Global, text: &str) -> Board {
    let board = started(rt, alloc, text, 20_000);
    work_alone(alloc, board, &OpenGate).board
}

#[test]
fn two_workers_hold_two_tickets_at_once(rt: HostRuntime) {
    let gate = HoldGate::new(2, 3);
    let board = started(&rt, rt.alloc(), "(RULES a == b)", 20_000);
    let crew = work_together(&rt, rt.alloc(), board, 2, &gate);
    assert!(rt; !crew.out_of_memory);
    assert!(rt; gate.met());
    let verdict = crew.board.verdict();
    assert!(rt; matches!(verdict, Some(Verdict::Complete(_))));
    drop(crew);
}

#[test]
fn one_worker_never_meets_another(rt: HostRuntime) {
    let gate = HoldGate::new(2, 90_000);
    let board = started(&rt, rt.alloc(), "(RULES a == b)", 20_000);
    let crew = work_alone(rt.alloc(), board, &gate);
    assert!(rt; !crew.out_of_memory);
    assert!(rt; !gate.met());
    drop(crew);
}

#[test]
fn one_worker_together_makes_the_journal_of_one_alone(rt: HostRuntime) {
    let text = "(VAR x)(RULES f(f(x)) == a)";
    let alone = finished(&rt, rt.alloc(), text);
    let board = started(&rt, rt.alloc(), text, 20_000);
    let crew = work_together(&rt, rt.alloc(), board, 1, &OpenGate);
    assert!(rt; !crew.out_of_memory);
    assert!(rt; crew.board.journal().len() == alone.journal().len());
    drop(alone);
    drop(crew);
}

#[test]
fn no_equation_ends_under_sixteen_workers(rt: HostRuntime) {
    let board = started(&rt, rt.alloc(), "(RULES )", 20_000);
    let crew = work_together(&rt, rt.alloc(), board, 16, &OpenGate);
    assert!(rt; !crew.out_of_memory);
    let verdict = crew.board.verdict();
    assert!(rt; matches!(verdict, Some(Verdict::Complete(_))));
    drop(crew);
}

#[test]
fn the_budget_is_spent_by_four_workers(rt: HostRuntime) {
    let text = "(VAR x y z)(RULES m(e,x) == x m(i(x),x) == e m(m(x,y),z) == m(x,m(y,z)))";
    let board = started(&rt, rt.alloc(), text, 40);
    let crew = work_together(&rt, rt.alloc(), board, 4, &OpenGate);
    assert!(rt; !crew.out_of_memory);
    assert!(rt; crew.board.commits() <= 40);
    assert!(rt; crew.board.verdict().is_some());
    drop(crew);
}
