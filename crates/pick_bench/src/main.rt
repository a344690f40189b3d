//! Repeats calls on an agenda and on an index of rules, to be timed from outside.
//!
//! The words are the call (next, turn, candidates or scan), how many jobs or rules there are, and how often it is run, the last two
//! on each of 1,000 terms; what is printed is a checksum of the answers.
#![tactic(auto)]

ghost use Rattle.std.specs.Prelude.{◌≡◌};
ghost use Rattle.mkb_model.specs.Jobs.{process_of as process_in};

use kb_label::Process;
use kb_match::fits;
use kb_node::Job;
use kb_term::{Memory, Rule, RuleRef, Symbol, Term, Terms};
use mkb_pick::Agenda;
use rule_index::RuleIndex;
use std::alloc::Global;
use std::env;
use std::process::ExitCode;

/// How many terms are looked up.
const TERMS: u32 = 1000;

/// What is repeated.
#[derive(Clone, Copy)]
enum Call {
    /// The next job of an agenda.
    Next,
    /// A job is taken out of an agenda and put back.
    Turn,
    /// The rules whose left sides fit a term, by the index.
    Candidates,
    /// The same, rule by rule.
    Scan,
}

// The call of this name.
fn call_named(name: &str) -> Option<Call> {
    match name {
        "next" => Some(Call::Next),
        "turn" => Some(Call::Turn),
        "candidates" => Some(Call::Candidates),
        "scan" => Some(Call::Scan),
        _ => None,
    }
}

// The next number of a linear congruential generator, and its upper half.
fn drawn(seed: &mut u32) -> u32 {
    *seed = seed.wrapping_mul(1664525).wrapping_add(1013904223);
    *seed >> 16
}

fn process_of(job: &Job) -> Process
    ensures { result ≡ process_in job.now }
{
    match job {
        Job::Reduce(p, _) | Job::Orient(p, _) | Job::Overlap(p, _, _) | Job::Close(p) => *p,
    }
}

// Takes the job out, where it is there, and puts it in again.
fn put(agenda: &mut Agenda, job: &Job, weight: u32) -> Result<u32, Memory> {
    let there = agenda.remove(job, weight);
    if agenda.is_listed(&process_of(job)) {
        agenda.add(job, weight)?;
    }
    Ok(if there { 1 } else { 0 })
}

// The job with the number: an overlap of two rules of the first process.
fn job_of(n: u32) -> Job {
    let first = RuleRef {
        node: (n % 512) as u16,
        dir: 0,
    };
    let second = RuleRef {
        node: (n / 512 % 4096) as u16,
        dir: 1,
    };
    Job::Overlap(Process::root(), first, second)
}

// The weight of the job with the number.
fn weight_of(n: u32) -> u32 {
    n.wrapping_mul(7919) % 1009
}

// An agenda of one process with so many jobs.
fn filled(alloc: Global, size: u32) -> Result<Agenda, Memory> {
    let root = Process::root();
    let mut agenda = Agenda::new(alloc);
    if !agenda.is_listed(&root) {
        agenda.list(root, 1)?;
    }
    for n in 0..size {
        put(&mut agenda, &job_of(n), weight_of(n))?;
    }
    Ok(agenda)
}

fn next_jobs(agenda: &Agenda, repetitions: u32) -> u32 {
    let mut sum = 0u32;
    for _ in 0..repetitions {
        if agenda.next(&[]).is_some() {
            sum = sum.wrapping_add(1);
        }
    }
    sum
}

fn turned(agenda: &mut Agenda, size: u32, repetitions: u32) -> Result<u32, Memory> {
    let mut seed = 1;
    let mut sum = 0u32;
    for _ in 0..repetitions {
        let n = drawn(&mut seed)
            .wrapping_mul(7)
            .wrapping_add(drawn(&mut seed))
            % size.max(1);
        sum = sum.wrapping_add(put(agenda, &job_of(n), weight_of(n))?);
    }
    Ok(sum)
}

fn unary(alloc: Global, f: u32, t: Term) -> Result<Term, Memory> {
    let mut items = Vec::new(alloc);
    items.push(t)?;
    Ok(Term::App(Symbol((f % 10 + 1) as u8), Terms::new(items)))
}

// A term with three unary symbols, by the last three digits of the number, over these two variables.
fn pattern(alloc: Global, n: u32, x: u16, y: u16) -> Result<Term, Memory> {
    let mut items = Vec::new(alloc);
    items.push(unary(alloc, n, unary(alloc, n / 10, Term::Var(x))?)?)?;
    items.push(unary(alloc, n / 100, Term::Var(y))?)?;
    Ok(Term::App(Symbol(0), Terms::new(items)))
}

fn rules(alloc: Global, size: u32) -> Result<Vec<Rule>, Memory> {
    let mut rules = Vec::new(alloc);
    for n in 0..size {
        rules.push(Rule::new(pattern(alloc, n, 0, 1)?, Term::Var(0)))?;
    }
    Ok(rules)
}

fn terms(alloc: Global) -> Result<Vec<Term>, Memory> {
    let mut terms = Vec::new(alloc);
    let mut seed = 1;
    for _ in 0..TERMS {
        terms.push(pattern(alloc, drawn(&mut seed), 2, 3)?)?;
    }
    Ok(terms)
}

fn indexed(alloc: Global, rules: &[Rule]) -> Result<RuleIndex, Memory> {
    let mut index = RuleIndex::new(alloc);
    let mut key = 0u32;
    for rule in rules {
        index.add(key, rule)?;
        key = key.wrapping_add(1);
    }
    Ok(index)
}

fn found_by_index(index: &RuleIndex, terms: &[Term]) -> Result<u32, Memory> {
    let mut sum = 0u32;
    for term in terms {
        for key in index.candidates(term)? {
            sum = sum.wrapping_add(key % 7);
        }
    }
    Ok(sum)
}

fn found_by_scan(rules: &[Rule], terms: &[Term]) -> u32 {
    let mut sum = 0u32;
    for term in terms {
        let mut key = 0u32;
        for rule in rules {
            if fits(rule.left(), term) {
                sum = sum.wrapping_add(key % 7);
            }
            key = key.wrapping_add(1);
        }
    }
    sum
}

fn looked_up(alloc: Global, by_index: bool, size: u32, repetitions: u32) -> Result<u32, Memory> {
    let rules = rules(alloc, size)?;
    let terms = terms(alloc)?;
    let index = indexed(alloc, &rules)?;
    let mut sum = 0u32;
    for _ in 0..repetitions {
        let found = if by_index {
            found_by_index(&index, &terms)?
        } else {
            found_by_scan(&rules, &terms)
        };
        sum = sum.wrapping_add(found);
    }
    Ok(sum)
}

fn repeated(alloc: Global, call: Call, size: u32, repetitions: u32) -> Result<u32, Memory> {
    match call {
        Call::Next => Ok(next_jobs(&filled(alloc, size)?, repetitions)),
        Call::Turn => {
            let mut agenda = filled(alloc, size)?;
            turned(&mut agenda, size, repetitions)
        }
        Call::Candidates => looked_up(alloc, true, size, repetitions),
        Call::Scan => looked_up(alloc, false, size, repetitions),
    }
}

fn words(rt: &HostRuntime, alloc: Global) -> Result<Vec<String>, Memory> {
    let Ok(args) = env::args(rt) else {
        return Err(Memory);
    };
    let mut words = Vec::new(alloc);
    for word in args.skip(1) {
        words.push(word)?;
    }
    Ok(words)
}

// What the words ask for.
fn answer(alloc: Global, words: &[String]) -> Option<Result<u32, Memory>> {
    if words.len() != 3 {
        return None;
    }
    let call = call_named(words[0].as_str())?;
    let Ok(size) = words[1].as_str().parse::<u32>() else {
        return None;
    };
    let Ok(repetitions) = words[2].as_str().parse::<u32>() else {
        return None;
    };
    Some(repeated(alloc, call, size, repetitions))
}

fn main(rt: HostRuntime) -> ExitCode {
    let alloc = rt.alloc();
    let Ok(words) = words(&rt, alloc) else {
        return ExitCode::from(3);
    };
    match answer(alloc, words.as_slice()) {
        None => ExitCode::from(2),
        Some(Err(_)) => ExitCode::from(3),
        Some(Ok(sum)) => match println!(rt; "{sum}") {
            Ok(()) => ExitCode::from(0),
            Err(_) => ExitCode::from(1),
        },
    }
}
