//! Tests of texts that are read and written.
#![tactic(auto)]

#[cfg(test)]
mod problems;
#[cfg(test)]
mod reports;
#[cfg(test)]
mod terms;
#[cfg(test)]
mod traces;
