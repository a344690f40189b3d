//! What a rewrite system means: confluence by overlaps, what completion keeps, and what a complete system decides.
//!
//! Each function has an empty body: its clauses are theorems over the definitions. The edits that a check must refuse turn a
//! definition, so that a theorem becomes false.
#![tactic(auto)]

mod laws;

pub use laws::{
    church_rosser, complete_state, completion_keeps, critical_pair_lemma, lone_rule, newmans_lemma,
    ordered_rules_halt, runs_keep, square_completes,
};
