//! Tests of what is done with answers.
#![tactic(auto)]

#[cfg(test)]
mod checking;
#[cfg(test)]
mod deciding;
#[cfg(test)]
mod exporting;
#[cfg(test)]
mod goals;
#[cfg(test)]
mod reducing;
