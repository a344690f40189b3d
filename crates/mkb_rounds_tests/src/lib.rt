//! Tests of rounds: their journal, and that it is the same for every number of workers.
#![tactic(auto)]

#[cfg(test)]
mod tests;
