//! Repeats calls on a bank of terms, to be timed from outside.
//!
//! The words are the call (intern, again, lookup or view) and how often it is run on each of 2,000 terms, or on each cell;
//! what is printed is a checksum of the answers. The calls add, find and pair are run on a table of nodes with 4,096 pairs.
#![tactic(auto)]

mod nodes;

ghost use Rattle.std.specs.Prelude.{◌≤◌};
ghost use Rattle.kb_term.specs.Tree.{tree_size};
ghost use Rattle.kb_term.specs.View.{tree_of};

use crate::nodes::{TableCall, repeated_on_table};
use kb_node::NodeFault;
use kb_term::{Memory, Symbol, Term, Terms, term_limit};
use std::alloc::Global;
use std::env;
use std::process::ExitCode;
use term_bank::{Bank, TermId};

// How many terms are made.
const TERMS: usize = 2000;

// How many levels of arguments a term has at most.
const DEPTH: u32 = 6;

/// What is repeated.
#[derive(Clone, Copy)]
enum Call {
    /// On a bank of terms.
    Bank(BankCall),
    /// On a table of nodes.
    Table(TableCall),
}

/// What is repeated on a bank.
#[derive(Clone, Copy)]
enum BankCall {
    /// Each term comes into an empty bank.
    Intern,
    /// Each term comes in, and is there.
    Again,
    /// Each term is looked up.
    Lookup,
    /// The term of each cell is made.
    View,
}

// The call of this name.
fn call_named(name: &str) -> Option<Call> {
    match name {
        "intern" => Some(Call::Bank(BankCall::Intern)),
        "again" => Some(Call::Bank(BankCall::Again)),
        "lookup" => Some(Call::Bank(BankCall::Lookup)),
        "view" => Some(Call::Bank(BankCall::View)),
        "add" => Some(Call::Table(TableCall::Add)),
        "find" => Some(Call::Table(TableCall::Find)),
        "pair" => Some(Call::Table(TableCall::Pair)),
        _ => None,
    }
}

/// A term within the limit on sizes.
#[derive(Drop)]
struct Small {
    term: Term,
    ghost small: { tree_size (tree_of term) ≤ 512 },
}

// The next number of a linear congruential generator, and its upper half.
fn drawn(seed: &mut u32) -> u32 {
    *seed = seed.wrapping_mul(1664525).wrapping_add(1013904223);
    *seed >> 16
}

// A random term: 8 variables, and symbols of 0 to 3 arguments.
pub(crate) fn grown(alloc: Global, seed: &mut u32, depth: u32) -> Result<Term, Memory> {
    let n = drawn(seed);
    if depth == 0 || n % 8 == 0 {
        return Ok(Term::Var((drawn(seed) % 8) as u16));
    }
    let symbol = (drawn(seed) % 8) as u8;
    let mut items = Vec::new(alloc);
    for _ in 0..symbol % 4 {
        items.push(grown(alloc, seed, depth - 1)?)?;
    }
    Ok(Term::App(Symbol(symbol), Terms::new(items)))
}

fn sample(alloc: Global) -> Result<Vec<Small>, Memory> {
    let mut seed = 1;
    let mut terms = Vec::new(alloc);
    for _ in 0..TERMS {
        let term = grown(alloc, &mut seed, DEPTH)?;
        if term_limit(&term).is_none() {
            terms.push(Small { term })?;
        }
    }
    Ok(terms)
}

fn intern_all(bank: &mut Bank, terms: &[Small]) -> Result<u32, Memory> {
    let mut sum = 0u32;
    for small in terms {
        if bank.used() > 4_000_000 {
            return Err(Memory);
        }
        sum = sum.wrapping_add(bank.intern(&small.term)?.0);
    }
    Ok(sum)
}

fn lookup_all(bank: &Bank, terms: &[Small]) -> u32 {
    let mut sum = 0u32;
    for small in terms {
        if let Some(id) = bank.lookup(&small.term) {
            sum = sum.wrapping_add(id.0);
        }
    }
    sum
}

fn view_all(bank: &Bank) -> Result<u32, Memory> {
    let mut sum = 0u32;
    for n in 0..bank.used() {
        sum = sum.wrapping_add(match bank.view(TermId(n))? {
            Term::Var(x) => x as u32,
            Term::App(f, _) => f.0 as u32,
        });
    }
    Ok(sum)
}

fn repeated_on_bank(alloc: Global, call: BankCall, repetitions: u32) -> Result<u32, Memory> {
    let terms = sample(alloc)?;
    let mut bank = Bank::new(alloc);
    let mut sum = intern_all(&mut bank, terms.as_slice())?;
    for _ in 0..repetitions {
        let answer = match call {
            BankCall::Intern => {
                bank = Bank::new(alloc);
                intern_all(&mut bank, terms.as_slice())?
            }
            BankCall::Again => intern_all(&mut bank, terms.as_slice())?,
            BankCall::Lookup => lookup_all(&bank, terms.as_slice()),
            BankCall::View => view_all(&bank)?,
        };
        sum = sum.wrapping_add(answer);
    }
    Ok(sum.wrapping_add(bank.used()))
}

fn repeated(alloc: Global, call: Call, repetitions: u32) -> Result<u32, NodeFault> {
    match call {
        Call::Bank(call) => Ok(repeated_on_bank(alloc, call, repetitions)?),
        Call::Table(call) => repeated_on_table(alloc, call, repetitions),
    }
}

fn words(rt: &HostRuntime, alloc: Global) -> Result<Vec<String>, Memory> {
    let Ok(args) = env::args(rt) else {
        return Err(Memory);
    };
    let mut words = Vec::new(alloc);
    for word in args.skip(1) {
        words.push(word)?;
    }
    Ok(words)
}

// What the words ask for.
fn answer(alloc: Global, words: &[String]) -> Option<Result<u32, NodeFault>> {
    if words.len() != 2 {
        return None;
    }
    let call = call_named(words[0].as_str())?;
    let Ok(repetitions) = words[1].as_str().parse::<u32>() else {
        return None;
    };
    Some(repeated(alloc, call, repetitions))
}

fn main(rt: HostRuntime) -> ExitCode {
    let alloc = rt.alloc();
    let Ok(words) = words(&rt, alloc) else {
        return ExitCode::from(3);
    };
    match answer(alloc, words.as_slice()) {
        None => ExitCode::from(2),
        Some(Err(_)) => ExitCode::from(3),
        Some(Ok(sum)) => match println!(rt; "{sum}") {
            Ok(()) => ExitCode::from(0),
            Err(_) => ExitCode::from(1),
        },
    }
}
