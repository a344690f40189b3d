//! Repeats a search for an order, a unification, a normalisation or the reading of a problem on a fixed case, to be timed from outside.
//!
//! The words are the name of a case and how often it is run; what is printed is a checksum of the answers. At `sets` the number
//! is that of random sets of rules, and a line is printed for each: the checksum and the nanoseconds of one search.
#![tactic(auto)]

mod reading;
mod rewriting;
mod rules;
mod runs;
mod sets;
mod shapes;

use kb_term::Memory;
use runs::{Case, case_named, checksum};
use sets::print_sets;
use std::alloc::Global;
use std::env;
use std::mem::drop;
use std::process::ExitCode;

// What the words ask for.
#[derive(Clone, Copy)]
enum Request {
    Repeat(Case, u32),
    Sets(u32),
}

fn requested(words: &[String]) -> Option<Request> {
    if words.len() != 2 {
        return None;
    }
    let Ok(times) = words[1].as_str().parse::<u32>() else {
        return None;
    };
    match words[0].as_str() {
        "sets" => Some(Request::Sets(times)),
        name => Some(Request::Repeat(case_named(name)?, times)),
    }
}

fn words(rt: &HostRuntime, alloc: Global) -> Result<Vec<String>, Memory> {
    let Ok(args) = env::args(rt) else {
        return Err(Memory);
    };
    let mut words = Vec::new(alloc);
    for word in args.skip(1) {
        words.push(word)?;
    }
    Ok(words)
}

fn perform(rt: &HostRuntime, request: Request) -> ExitCode {
    match request {
        Request::Repeat(case, repetitions) => match checksum(rt.alloc(), case, repetitions) {
            Ok(sum) => match println!(rt; "{sum}") {
                Ok(()) => ExitCode::from(0),
                Err(_) => ExitCode::from(1),
            },
            Err(_) => ExitCode::from(3),
        },
        Request::Sets(sets) => match print_sets(rt, sets) {
            Ok(()) => ExitCode::from(0),
            Err(_) => ExitCode::from(1),
        },
    }
}

fn main(rt: HostRuntime) -> ExitCode {
    let Ok(words) = words(&rt, rt.alloc()) else {
        return ExitCode::from(3);
    };
    let request = requested(&words);
    drop(words);
    match request {
        Some(request) => perform(&rt, request),
        None => ExitCode::from(2),
    }
}
