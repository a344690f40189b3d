//! Repeats calls on labels of 1,024 living processes, to be timed from outside.
//!
//! The words are the form of the labels (list or fork), the call (log, has, join or minus) and how often it is run; what
//! is printed is a count of the answers.
#![tactic(auto)]

use fork_labels::ForkLabels;
use kb_label::{Labels, ListLabels, Living, MAX_BITS, MAX_LIVING, Process};
use std::alloc::{AllocError, Global};
use std::process::ExitCode;
use std::{env, mem};

/// What is repeated.
#[derive(Clone, Copy)]
enum Call {
    Log,
    Has,
    Join,
    Minus,
}

// The call of this name.
fn call_named(name: &str) -> Option<Call> {
    match name {
        "log" => Some(Call::Log),
        "has" => Some(Call::Has),
        "join" => Some(Call::Join),
        "minus" => Some(Call::Minus),
        _ => None,
    }
}

// A log in which 1,024 processes live, the shortest forked first.
fn full_log<L: Living>(alloc: Global) -> Result<L, AllocError> {
    let mut log = L::start(alloc)?;
    let mut waiting = Vec::new(alloc);
    waiting.push(Process::root())?;
    for i in 0..1023 {
        if let Some(next) = waiting.get(i) {
            let process = *next;
            if process.len() < MAX_BITS && log.is_living(&process) && log.living() < MAX_LIVING {
                log.fork(&process)?;
                waiting.push(process.child(false))?;
                waiting.push(process.child(true))?;
            }
        }
    }
    Ok(log)
}

// The label of every second name, or of the others.
fn half<L: Labels>(
    alloc: Global,
    log: &L::Log,
    names: &[Process],
    rest: usize,
) -> Result<L, AllocError> {
    let mut label = L::new(alloc);
    for (i, name) in names.iter().enumerate() {
        if i % 2 == rest && log.is_living(name) {
            label.add(log, name)?;
        }
    }
    Ok(label)
}

// How many of the names the label has.
fn count<L: Labels>(log: &L::Log, label: &L, names: &[Process]) -> u32 {
    let mut found = 0u32;
    for name in names {
        if label.has(log, name) {
            found = found.wrapping_add(1);
        }
    }
    found
}

fn repeated<L: Labels>(alloc: Global, call: Call, repetitions: u32) -> Result<u32, AllocError> {
    let mut log: L::Log = full_log(alloc)?;
    let names = log.names()?;
    let mut label: L = half(alloc, &log, &names, 0)?;
    let mut other: L = half(alloc, &log, &names, 1)?;
    let mut sum = 0u32;
    for _ in 0..repetitions {
        match call {
            Call::Log => log = full_log(alloc)?,
            Call::Has => {
                sum = sum.wrapping_add(count(&log, &label, &names));
                mem::swap(&mut label, &mut other);
            }
            Call::Join => label.join(&log, &other)?,
            Call::Minus => label.minus(&log, &other)?,
        }
    }
    Ok(
        sum.wrapping_add(count(&log, &label, &names))
            .wrapping_add(log.living()),
    )
}

fn words(rt: &HostRuntime, alloc: Global) -> Result<Vec<String>, AllocError> {
    let Ok(args) = env::args(rt) else {
        return Err(AllocError);
    };
    let mut words = Vec::new(alloc);
    for word in args.skip(1) {
        words.push(word)?;
    }
    Ok(words)
}

// What the words ask for.
fn answer(alloc: Global, words: &[String]) -> Option<Result<u32, AllocError>> {
    if words.len() != 3 {
        return None;
    }
    let call = call_named(words[1].as_str())?;
    let Ok(repetitions) = words[2].as_str().parse::<u32>() else {
        return None;
    };
    match words[0].as_str() {
        "list" => Some(repeated::<ListLabels>(alloc, call, repetitions)),
        "fork" => Some(repeated::<ForkLabels>(alloc, call, repetitions)),
        _ => None,
    }
}

fn main(rt: HostRuntime) -> ExitCode {
    let alloc = rt.alloc();
    let Ok(words) = words(&rt, alloc) else {
        return ExitCode::from(3);
    };
    match answer(alloc, &words) {
        None => ExitCode::from(2),
        Some(Err(_)) => ExitCode::from(3),
        Some(Ok(sum)) => match println!(rt; "{sum}") {
            Ok(()) => ExitCode::from(0),
            Err(_) => ExitCode::from(1),
        },
    }
}
