//! Tests of the orders and their searches.
#![tactic(auto)]

#[cfg(test)]
mod building;
#[cfg(test)]
mod certificates;
#[cfg(test)]
mod interpretations;
#[cfg(test)]
mod precedences;
#[cfg(test)]
mod weights;
