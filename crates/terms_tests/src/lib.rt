//! Tests of the crates of terms: worked examples and each call at its limits.
#![tactic(auto)]

#[cfg(test)]
mod banks;
#[cfg(test)]
mod building;
#[cfg(test)]
mod indices;
#[cfg(test)]
mod matching;
#[cfg(test)]
mod overlapping;
#[cfg(test)]
mod parts;
#[cfg(test)]
mod rewriting;
#[cfg(test)]
mod terms;
#[cfg(test)]
mod unifying;
