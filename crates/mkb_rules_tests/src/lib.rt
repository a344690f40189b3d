//! Tests of the calls of `mkb_rules` on small states, each with ample memory.
#![tactic(auto)]

#[cfg(test)]
mod calls;
#[cfg(test)]
mod terms;
#[cfg(test)]
mod tests;
