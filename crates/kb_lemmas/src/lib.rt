//! Lemmas of truth values, numbers, lists and members that name nothing of completion. It has no code.
#![tactic(auto)]
