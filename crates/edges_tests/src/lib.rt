//! Tests of words, streams, hints and the turn lock.
#![tactic(auto)]

#[cfg(test)]
mod hints;
#[cfg(test)]
mod streams;
#[cfg(test)]
mod turns;
#[cfg(test)]
mod words;
