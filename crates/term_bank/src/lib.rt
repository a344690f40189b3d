//! Terms by number: a bank keeps each term once, with its subterms.
#![tactic(auto)]

mod bank;
mod cell;
mod chains;
mod hashing;
mod interning;
mod looking;

pub use bank::{Bank, MAX_CELLS};
pub use cell::{Cell, TermId};
