// The summary of a board.
ghost use Rattle.std.specs.Prelude.{◌≡◌, ◌<◌, ◌≤◌, length, filter};
ghost use Rattle.mkb_model.specs.Plain.{rules_of, is_over};
ghost use Rattle.mkb_model.specs.Verdicts.{verdict as verdict_on};
ghost use Rattle.mkb_rules.specs.Parts.{plain_nodes};
ghost use Rattle.mkb_report.specs.Summaries.{is_dead, rule_count as rule_count_at, summary_of as summary_at};

use kb_label::{ListLabels, Living, NameLog, Process, Verdict};
use kb_node::{LabelKind, NodeId, NodeTable};
use kb_report::Summary;
use mkb_rules::State;

/// The board in numbers, with the verdict that stands on it, if one does, and how many tickets were dropped. It takes no memory.
pub fn summary_of(state: &State, verdict: &Option<Verdict>, drops: u64) -> Summary
    requires { verdict.now ≡ verdict_on state.now }
    ensures { result ≡ summary_at state.now drops }
{
    let living = state.log().living() as u64;
    Summary {
        verdict: *verdict,
        commits: state.commits() as u64,
        drops,
        nodes: state.nodes().len() as u64,
        dead: dead_count(state.log(), state.nodes()),
        forks: living.saturating_sub(1),
        living,
        over: over_count(state),
        rules: rule_count(state, verdict),
    }
}

// How many nodes are no rule and no equation of any process.
fn dead_count(log: &NameLog, table: &NodeTable<ListLabels>) -> u64
    ensures { result ≡ length (filter is_dead (plain_nodes table.now)) }
{
    let mut count = 0;
    for i in 0..table.len() {
        if table.is_dead(log, NodeId(i as u16)) {
            count += 1;
        }
    }
    count
}

// How many living processes gave up.
fn over_count(state: &State) -> u64
    ensures { result ≡ length (filter (is_over state.now) state.now.living) }
{
    let processes = state.log().processes();
    let mut count = 0;
    for i in 0..processes.len() {
        if state.is_over(&processes[i]) {
            count += 1;
        }
    }
    count
}

// How many rules the complete process has, else 0.
fn rule_count(state: &State, verdict: &Option<Verdict>) -> u64
    ensures { result ≡ rule_count_at state.now verdict.now }
{
    match verdict {
        Some(Verdict::Complete(p)) => rules_of_process(state, p),
        _ => 0,
    }
}

fn rules_of_process(state: &State, p: &Process) -> u64
    ensures { result ≡ length (rules_of state.now p.now) }
{
    let mut count = 0;
    for i in 0..state.nodes().len() {
        let n = NodeId(i as u16);
        if state.has_label(p, n, LabelKind::R0) {
            count += 1;
        }
        if state.has_label(p, n, LabelKind::R1) {
            count += 1;
        }
    }
    count
}
