// Random sets of rules for the path order, each searched and timed by itself.
ghost use Rattle.std.specs.Prelude.{◌≡◌, ◌≤◌, ◌<◌, length, IfOk};

use crate::rules::{next, some_term};
use crate::runs::precedence_code;
use crate::shapes::{binary, signature, unary};
use kb_lpo::{Precedence, lpo_greater, search_lpo};
use kb_term::{Memory, Rule, Symbol, Term};
use std::alloc::Global;
use std::io;
use std::time::Instant;

// How many pairs of terms are tried at most for the rules of a set.
const MOST_TRIES: u32 = 20000;

// How often a set is searched; the least time counts.
const TIMES: u32 = 5;

// The symbols below the count in a random order.
fn shuffled(alloc: Global, seed: &mut u32, count: usize) -> Result<Precedence, Memory>
    requires { count ≤ 24 }
{
    let mut symbols = Vec::new(alloc);
    for f in 0..count {
        symbols.push(Symbol(f as u8))?;
    }
    for f in 1..symbols.len() {
        let other = next(seed, 24) as usize;
        if other < f {
            symbols.swap(f, other);
        }
    }
    Ok(Precedence::new(symbols))
}

// From 3 to 24 arities, each up to 3.
fn some_arities(alloc: Global, seed: &mut u32) -> Result<Vec<u8>, Memory>
    ensures { IfOk result (λ arities. length arities.items ≤ 24) }
{
    let count = 3 + next(seed, 22);
    let mut arities = Vec::new(alloc);
    for _ in 0..count {
        arities.push(next(seed, 4) as u8)?;
    }
    Ok(arities)
}

// So many rules, each eighth of which the second precedence orients, and the others the first.
fn some_rules(
    alloc: Global,
    seed: &mut u32,
    arities: &[u8],
    count: usize,
    guides: &(Precedence, Precedence),
) -> Result<Vec<Rule>, Memory>
    requires { length arities.now ≤ 24 }
{
    let mut rules = Vec::new(alloc);
    for _ in 0..MOST_TRIES {
        if rules.len() >= count {
            return Ok(rules);
        }
        let s = some_term(alloc, seed, arities, 3)?;
        let t = some_term(alloc, seed, arities, 2)?;
        let guide = if rules.len() % 8 == 7 {
            &guides.1
        } else {
            &guides.0
        };
        if lpo_greater(guide, &s, &t) {
            rules.push(Rule::new(s, t))?;
        }
    }
    Ok(rules)
}

// The precedences that orient the rules of a set, one of them alone where asked.
fn some_guides(
    alloc: Global,
    seed: &mut u32,
    count: usize,
    is_one: bool,
) -> Result<(Precedence, Precedence), Memory>
    requires { count ≤ 24 }
{
    let first = shuffled(alloc, seed, count)?;
    let second = if is_one {
        first.clone()?
    } else {
        shuffled(alloc, seed, count)?
    };
    Ok((first, second))
}

// From 5 to 60 rules over symbols of these arities, oriented by one precedence where asked.
fn oriented_rules(
    alloc: Global,
    seed: &mut u32,
    arities: &[u8],
    is_one: bool,
) -> Result<Vec<Rule>, Memory>
    requires { length arities.now ≤ 24 }
{
    let guides = some_guides(alloc, seed, arities.len(), is_one)?;
    let count = 5 + next(seed, 56) as usize;
    some_rules(alloc, seed, arities, count, &guides)
}

// The arities and the rules of the set of this number: from 5 to 60 rules over 3 to 24 symbols. Every third set has an
// answer; in the others each eighth rule is oriented by a precedence of its own.
fn random_set(alloc: Global, number: u32) -> Result<(Vec<u8>, Vec<Rule>), Memory>
    ensures { IfOk result (λ set. length set.0.items ≤ 24) }
{
    let mut seed = number;
    let arities = some_arities(alloc, &mut seed)?;
    let rules = oriented_rules(alloc, &mut seed, &arities, number % 3 == 0)?;
    Ok((arities, rules))
}

// These symbols, each applied to the next, the last to a variable.
fn word(alloc: Global, symbols: &[u8]) -> Result<Term, Memory> {
    let mut t = Term::Var(0);
    for f in symbols.iter().rev() {
        t = unary(alloc, *f, t)?;
    }
    Ok(t)
}

/// Two rules over symbols 0 and 1 that no precedence orients together, behind rules by which so many symbols select from
/// pairs of their own.
pub(crate) fn selectors(alloc: Global, pairs: u8) -> Result<Vec<Rule>, Memory>
    requires { pairs ≤ 11 }
{
    let mut rules = Vec::new(alloc);
    rules.push(Rule::new(word(alloc, &[0, 0])?, word(alloc, &[1, 1])?))?;
    rules.push(Rule::new(word(alloc, &[1, 1, 0])?, word(alloc, &[0, 1, 1])?))?;
    for n in 0..pairs {
        let pair = binary(alloc, 2 + pairs + n, Term::Var(0), Term::Var(1))?;
        rules.push(Rule::new(unary(alloc, 2 + n, pair)?, Term::Var(0)))?;
    }
    Ok(rules)
}

fn out_of_memory(_: Memory) -> io::Error {
    io::Error::from(io::ErrorKind::OutOfMemory)
}

// The nanoseconds of the search, the least of some times, with the checksum of its answer.
fn timed(rt: &HostRuntime, arities: &[u8], rules: &[Rule]) -> io::Result<(u64, u128)>
    requires { length arities.now ≤ 24 }
{
    let alloc = rt.alloc();
    let sig = signature(alloc, arities).map_err(out_of_memory)?;
    let mut code = 0;
    let mut least = u128::MAX;
    for _ in 0..TIMES {
        let start = Instant::now(rt)?;
        code = precedence_code(&search_lpo(alloc, &sig, rules).map_err(out_of_memory)?);
        least = least.min(start.elapsed(rt)?.as_nanos());
    }
    Ok((code, least))
}

/// A line for each of so many sets: the checksum of the answer, and the nanoseconds of the search.
pub(crate) fn print_sets(rt: &HostRuntime, sets: u32) -> io::Result<()> {
    for number in 0..sets {
        let (arities, rules) = random_set(rt.alloc(), number).map_err(out_of_memory)?;
        let (code, spent) = timed(rt, &arities, &rules)?;
        println!(rt; "{code} {spent}")?;
    }
    Ok(())
}
