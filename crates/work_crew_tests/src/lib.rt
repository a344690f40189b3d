//! Tests of one worker's journals, commit by commit, and of several workers, on problems read from their texts.
#![tactic(auto)]

#[cfg(test)]
mod searches;
#[cfg(test)]
mod tests;
