//! Which processes a commit of the shared board moves, which jobs it makes due or not, whose cost and which rules in use it changes, which job comes first, and how processes end.
//!
//! Each function has an empty body: its clauses are theorems over the definitions of this crate and of `mkb_model`.
#![tactic(auto)]

mod laws;

pub use laws::{
    closings_and_facts_are_noted, closings_and_limits_end_jobs, deducing_adds_equations,
    deductions_open_their_nodes, facts_end_reductions, failed_processes_are_stuck,
    first_job_is_the_least, limits_stop_their_processes, new_rules_leave_other_work,
    orienting_makes_rules, others_keep_their_cost, others_keep_their_jobs, others_keep_their_state,
    reasons_are_of_the_first, refusals_end_one_orientation, rewriting_moves_its_label,
    rewritings_leave_other_work, rules_in_use_change_where_the_effect_is,
};
