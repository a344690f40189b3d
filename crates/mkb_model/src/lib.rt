//! The shared board of all processes as a model, and its theorems.
//!
//! Nothing runs here. The definitions say which jobs are due, what each proposes, what a commit does and which journals are
//! legal. Each function of the laws has an empty body: its clauses are theorems over these definitions.
#![tactic(auto)]

mod entry;
mod laws;
mod proposed;
mod settings;

pub use entry::{Effect, Entry, Ticket};
pub use laws::{
    boards_are_sound, certificates_order, closed_processes_rest, commits_change_the_board,
    commits_stay_within_the_budget, complete_is_good, facts_hold, flight_is_in_order,
    journals_decide_runs, labels_name_the_living, legal_runs_are_possible,
    living_names_come_of_forks, moves_decide_runs, one_worker_has_one_journal, opening_is_reached,
    origins_are_of_form, pairs_are_within_limits, pairs_stay, runs_complete,
    sixty_four_are_worked_on, tickets_are_dropped_after_commits, verdicts_stay, work_goes_on,
};
pub use proposed::{DeducedList, FactList, Proposed};
pub use settings::{Selection, Settings};
