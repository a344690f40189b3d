//! Completes a problem by several workers, which share what they find of orders or search anew, to be timed from outside.
//!
//! The words are `pool` or `search`, how many workers there are (1 to 16) and the most commits; the problem is read from standard
//! input, and how many commits were made is printed.
#![tactic(auto)]

ghost use Rattle.std.specs.Prelude.{◌≡◌, ◌≤◌, [], IfOk, IfSome};

use kb_io::{OpenGate, StdSource, read_all};
use kb_jobs::FamilySearcher;
use kb_syntax::{parse_problem, spelled_problems_are_within_limits};
use kb_term::Memory;
use mkb_board::Board;
use mkb_model::Settings;
use std::alloc::Global;
use std::env;
use std::mem::drop;
use std::process::ExitCode;
use std::sync::Wait;
use std::thread::Threads;
use std::time::Clock;
use work_crew::{work_together, work_together_by};

/// The most bytes of a problem.
const PROBLEM_BYTES: usize = 1_048_576;

/// How the workers find orders.
#[derive(Clone, Copy)]
enum Searches {
    Shared,
    Anew,
}

/// What the words ask for.
#[derive(Clone, Copy)]
struct Request {
    searches: Searches,
    workers: u8,
    budget: u32,
}

// How orders are found by this name.
fn searches_named(name: &str) -> Option<Searches> {
    match name {
        "pool" => Some(Searches::Shared),
        "search" => Some(Searches::Anew),
        _ => None,
    }
}

fn requested(words: &[String]) -> Option<Request>
    ensures least { IfSome result (λ r. 1 ≤ r.workers) }
    ensures most { IfSome result (λ r. r.workers ≤ 16) }
{
    if words.len() != 3 {
        return None;
    }
    let searches = searches_named(words[0].as_str())?;
    let Ok(workers) = words[1].as_str().parse::<u8>() else {
        return None;
    };
    let Ok(budget) = words[2].as_str().parse::<u32>() else {
        return None;
    };
    if workers < 1 || workers > 16 {
        return None;
    }
    Some(Request {
        searches,
        workers,
        budget,
    })
}

fn words(rt: &HostRuntime, alloc: Global) -> Result<Vec<String>, Memory> {
    let Ok(args) = env::args(rt) else {
        return Err(Memory);
    };
    let mut words = Vec::new(alloc);
    for word in args.skip(1) {
        words.push(word)?;
    }
    Ok(words)
}

// The board of the problem before any entry.
fn started(alloc: Global, bytes: &[u8], budget: u32) -> Result<Board, Memory>
    ensures { IfOk result (λ board. board.journal ≡ []) }
{
    spelled_problems_are_within_limits();
    match parse_problem(alloc, bytes) {
        Ok(problem) => Board::start(alloc, problem, Settings::stated(budget)),
        Err(_) => Err(Memory),
    }
}

// How many commits the workers make on the board.
fn commits<R: Threads + Wait + Clock + Sync>(
    rt: &R,
    alloc: Global,
    board: Board,
    request: Request,
) -> u32
    requires least { 1 ≤ request.workers }
    requires most { request.workers ≤ 16 }
    requires opening { board.journal ≡ [] }
{
    let crew = match request.searches {
        Searches::Shared => work_together(rt, alloc, board, request.workers, &OpenGate),
        Searches::Anew => {
            let anew = FamilySearcher::new(alloc);
            work_together_by(rt, alloc, board, request.workers, &OpenGate, &anew)
        }
    };
    let count = crew.board.commits();
    drop(crew);
    count
}

// How many commits are made on the problem that is read.
fn answer<R: Threads + Wait + Clock + Sync>(
    threads: &R,
    rt: &HostRuntime,
    request: Request,
) -> Result<u32, Memory>
    requires least { 1 ≤ request.workers }
    requires most { request.workers ≤ 16 }
{
    let mut source = StdSource::new(rt.stdin());
    let Ok(bytes) = read_all(rt.alloc(), &mut source, PROBLEM_BYTES) else {
        return Err(Memory);
    };
    let board = started(rt.alloc(), &bytes, request.budget)?;
    Ok(commits(threads, rt.alloc(), board, request))
}

fn main(rt: HostRuntime) -> ExitCode {
    let Ok(words) = words(&rt, rt.alloc()) else {
        return ExitCode::from(3);
    };
    let Some(request) = requested(&words) else {
        return ExitCode::from(2);
    };
    match answer(&rt, &rt, request) {
        Err(_) => ExitCode::from(3),
        Ok(count) => match println!(rt; "{count}") {
            Ok(()) => ExitCode::from(0),
            Err(_) => ExitCode::from(1),
        },
    }
}
