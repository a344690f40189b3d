//! The agenda: which job is taken next.
#![tactic(auto)]

mod agenda;
mod changes;
mod entry;
mod marks;
mod places;
mod pool;
mod queue;
mod run;
mod search;
mod stores;
mod task;
mod tree;

pub use agenda::Agenda;
