// Calls on a table of nodes.
ghost use Rattle.std.specs.Prelude.{◌<◌, length};

use crate::grown;
use kb_label::ListLabels;
use kb_node::{NodeFault, NodeId, NodeTable};
use kb_term::{Memory, Origin, Pair, Term, canonical, pair_limit};
use std::alloc::Global;

// How many pairs are made.
const PAIRS: usize = 4096;

// How many levels of arguments a side has at most.
const DEPTH: u32 = 6;

/// What is repeated on a table.
#[derive(Clone, Copy)]
pub enum TableCall {
    /// A copy of each pair comes into an empty table.
    Add,
    /// Each pair is found.
    Find,
    /// The pair of each node is copied.
    Pair,
}

// Random pairs, of which some may be equal.
fn pairs(alloc: Global) -> Result<Vec<Pair>, Memory> {
    let mut seed = 1;
    let mut pairs = Vec::new(alloc);
    for _ in 0..2 * PAIRS {
        let a = grown(alloc, &mut seed, DEPTH)?;
        let b = grown(alloc, &mut seed, DEPTH)?;
        if pairs.len() < PAIRS && pair_limit(&a, &b).is_none() {
            if let Some(pair) = canonical(alloc, &a, &b)? {
                pairs.push(pair)?;
            }
        }
    }
    Ok(pairs)
}

fn filled(alloc: Global, pairs: &[Pair]) -> Result<NodeTable<ListLabels>, NodeFault> {
    let mut table = NodeTable::new(alloc);
    for pair in pairs {
        table.find_or_add(pair.clone()?, Origin::Input(0))?;
    }
    Ok(table)
}

fn find_all(table: &NodeTable<ListLabels>, pairs: &[Pair]) -> u32 {
    let mut sum = 0u32;
    for pair in pairs {
        if let Some(n) = table.find(pair) {
            sum = sum.wrapping_add(n.0 as u32);
        }
    }
    sum
}

fn copy_all(table: &NodeTable<ListLabels>) -> Result<u32, Memory> {
    let mut sum = 0u32;
    for n in 0..table.len() {
        sum = sum.wrapping_add(match table.pair(NodeId(n as u16))?.first() {
            Term::Var(x) => *x as u32,
            Term::App(f, _) => f.0 as u32,
        });
    }
    Ok(sum)
}

/// Repeats a call, and gives a checksum of the answers.
pub fn repeated_on_table(
    alloc: Global,
    call: TableCall,
    repetitions: u32,
) -> Result<u32, NodeFault> {
    let pairs = pairs(alloc)?;
    let mut table = filled(alloc, pairs.as_slice())?;
    let mut sum = table.len();
    for _ in 0..repetitions {
        let answer = match call {
            TableCall::Add => {
                table = filled(alloc, pairs.as_slice())?;
                table.len()
            }
            TableCall::Find => find_all(&table, pairs.as_slice()),
            TableCall::Pair => copy_all(&table)?,
        };
        sum = sum.wrapping_add(answer);
    }
    Ok(sum)
}
