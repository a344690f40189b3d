//! Tests of the board: tickets that end out of order, and each call once.
#![tactic(auto)]

#[cfg(test)]
mod tests;
