//! Answers as texts for other tools: their rules as a problem, and their trace as a graph.
#![tactic(auto)]

mod graph;
mod laws;
mod rules;

pub use graph::dot_text;
pub use laws::written_rules_are_spelled;
pub use rules::trs_text;
