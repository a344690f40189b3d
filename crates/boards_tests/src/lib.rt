//! Tests of names, labels, nodes, jobs and the agenda of boards, and of their laws.
#![tactic(auto)]

#[cfg(test)]
mod agendas;
#[cfg(test)]
mod forks;
#[cfg(test)]
mod jobs;
#[cfg(test)]
mod labels;
#[cfg(test)]
mod laws;
#[cfg(test)]
mod nodes;
