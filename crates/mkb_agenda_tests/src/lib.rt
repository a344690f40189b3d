//! Tests of agendas and of indices of rules that follow commits on small states, each with ample memory.
#![tactic(auto)]

#[cfg(test)]
mod steps;
#[cfg(test)]
mod tests;
