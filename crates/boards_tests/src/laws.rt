// The laws, each called once: their bodies are empty, and their clauses are theorems.
use kb_laws::{
    church_rosser, complete_state, completion_keeps, critical_pair_lemma, lone_rule, newmans_lemma,
    ordered_rules_halt, runs_keep, square_completes,
};
use mkb_fairness::overlaps_wait_their_turn;
use mkb_model::{
    boards_are_sound, certificates_order, closed_processes_rest, commits_change_the_board,
    commits_stay_within_the_budget, complete_is_good, facts_hold, flight_is_in_order,
    journals_decide_runs, labels_name_the_living, legal_runs_are_possible,
    living_names_come_of_forks, moves_decide_runs, one_worker_has_one_journal, opening_is_reached,
    origins_are_of_form, pairs_are_within_limits, pairs_stay, runs_complete,
    sixty_four_are_worked_on, tickets_are_dropped_after_commits, verdicts_stay, work_goes_on,
};
use mkb_moves::{
    closings_and_facts_are_noted, deducing_adds_equations, failed_processes_are_stuck,
    first_job_is_the_least, limits_stop_their_processes, orienting_makes_rules,
    others_keep_their_state, reasons_are_of_the_first, rewriting_moves_its_label,
};
use mkb_report::{reports_are_good, reports_are_one};

#[test]
fn laws_of_completion_are_called(_rt: HostRuntime) {
    critical_pair_lemma();
    newmans_lemma();
    church_rosser();
    completion_keeps();
    runs_keep();
    complete_state();
    lone_rule();
    ordered_rules_halt();
    square_completes();
}

#[test]
fn laws_of_boards_are_called(_rt: HostRuntime) {
    legal_runs_are_possible();
    facts_hold();
    flight_is_in_order();
    journals_decide_runs();
    moves_decide_runs();
    one_worker_has_one_journal();
    labels_name_the_living();
    living_names_come_of_forks();
    pairs_stay();
    pairs_are_within_limits();
    commits_stay_within_the_budget();
    commits_change_the_board();
    verdicts_stay();
    tickets_are_dropped_after_commits();
    work_goes_on();
    sixty_four_are_worked_on();
    opening_is_reached();
    origins_are_of_form();
    runs_complete();
    closed_processes_rest();
    certificates_order();
    boards_are_sound();
    complete_is_good();
}

#[test]
fn laws_of_moves_are_called(_rt: HostRuntime) {
    others_keep_their_state();
    orienting_makes_rules();
    deducing_adds_equations();
    rewriting_moves_its_label();
    closings_and_facts_are_noted();
    limits_stop_their_processes();
    first_job_is_the_least();
    reasons_are_of_the_first();
    failed_processes_are_stuck();
}

#[test]
fn laws_of_waiting_are_called(_rt: HostRuntime) {
    overlaps_wait_their_turn();
}

#[test]
fn laws_of_reports_are_called(_rt: HostRuntime) {
    reports_are_good();
    reports_are_one();
}
