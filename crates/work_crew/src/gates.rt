// Asking a gate.
use kb_io::{Gate, Moment};

/// How often a worker asks the gate for one ticket at most.
const ASKS: u32 = 100_000_000;

/// Asks the gate for the ticket that was taken at this moment until it lets pass, for a bounded number of times.
pub fn ask<G: Gate>(gate: &G, moment: &Moment) {
    for turn in 0..ASKS {
        if gate.pass(moment, turn) {
            return;
        }
    }
}
