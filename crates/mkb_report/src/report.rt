// The report of a board on which a verdict stands.
ghost use Rattle.std.specs.Prelude.{◌≡◌, ◌<◌, ◌≤◌, ◌++◌, ℕ, Some, All, IfOk, length, map};
ghost use Rattle.kb_term.specs.Signature.{IsSignature};
ghost use Rattle.kb_term.specs.Rule.{Rule as RuleValue};
ghost use Rattle.mkb_model.specs.Plain.{PlainNode, constraints_of, rules_at, rules_of};
ghost use Rattle.mkb_model.specs.Verdicts.{verdict as verdict_on};
ghost use Rattle.mkb_rules.specs.Parts.{plain_nodes};
ghost use Rattle.kb_checker.specs.Answers.{Answer as SystemAnswer};
ghost use Rattle.kb_report.specs.Answers.{IsSystem};
ghost use Rattle.mkb_report.specs.Reports.{IsReached, IsAnswerOf, IsReportOf, nodes_of};
ghost use Rattle.mkb_rules.specs.Named.{IsRuleThere};
ghost use Rattle.mkb_report.specs.Cited.{cited_by, number_with as number_of_pair};

use kb_checker::Answer;
use kb_label::{ListLabels, Living, Process, Spent, Verdict};
use kb_node::{NodeId, NodeTable};
use kb_report::Report;
use kb_term::{MAX_NODES, Memory, Origin, Pair, Problem, Rule, RuleRef, rule_of};
use kb_trace::{Step, trace_of};
use mkb_rules::State;
use std::alloc::Global;

/// The report of the verdict that stands on the board: of a complete process its answer, that is its rules and its constraints
/// by node, then direction, each with the step of its node, its certificate, and as trace the nodes that they reach through
/// origins.
///
/// It takes time linear in the nodes, and for each rule and each constraint time linear in the steps of the trace.
///
/// # Errors
///
/// Want of memory.
pub fn report_of(alloc: Global, state: &State, verdict: &Verdict) -> Result<Report, Memory>
    requires reached { IsReached state.now }
    requires stands { verdict_on state.now ≡ Some verdict.now }
    ensures report { IfOk result (IsReportOf state.now verdict.now) }
    ensures form { IfOk result (λ r. (a : SystemAnswer) → r ≡ Report.System a → IsSystem a) }
{
    let living = state.log().living();
    match verdict {
        Verdict::Complete(p) => Ok(Report::System(answer_of(alloc, state, p)?)),
        Verdict::AllFailed => Ok(Report::AllFailed { living }),
        Verdict::Spent(Spent::Commits) => {
            let commits = state.commits();
            Ok(Report::SpentCommits { commits, living })
        }
        Verdict::Spent(Spent::Over(reason)) => Ok(Report::SpentOver {
            reason: *reason,
            living,
        }),
    }
}

// The answer of the process that is complete.
fn answer_of(alloc: Global, state: &State, p: &Process) -> Result<Answer, Memory>
    requires reached { IsReached state.now }
    requires stands { verdict_on state.now ≡ Some (Verdict.Complete p.now) }
    ensures answer { IfOk result (IsAnswerOf state.now p.now) }
    ensures form { IfOk result IsSystem }
{
    let problem = problem_of(state)?;
    let cert = state.certificate(p).clone()?;
    let nodes = node_list(alloc, state.nodes())?;
    let view = state.view_of(p)?;
    let rule_names = view.rules.items();
    let constraint_names = view.constraints.items();
    let wanted = nodes_of(alloc, rule_names, constraint_names)?;
    let trace = trace_of(alloc, nodes.as_slice(), wanted.as_slice())?;
    let steps = trace.steps();
    let rules = cited_rules(alloc, state, rule_names, steps)?;
    let constraints = cited_rules(alloc, state, constraint_names, steps)?;
    Ok(Answer::new(problem, rules, constraints, cert, trace))
}

// The problem, whose names are different identifiers: each signature keeps this.
fn problem_of(state: &State) -> Result<Problem, Memory>
    ensures problem { IfOk result (λ problem. problem ≡ state.now.problem) }
    ensures names { IsSignature state.now.problem.signature }
{
    let problem = state.problem();
    problem.signature().names_are_identifiers();
    Ok(problem.clone()?)
}

// The pair and the origin of each node.
fn node_list(alloc: Global, table: &NodeTable<ListLabels>) -> Result<Vec<(Pair, Origin)>, Memory>
    ensures nodes { IfOk result (λ nodes. nodes.items ≡ map (λ (x : PlainNode). (x.pair, x.origin)) (plain_nodes table.now)) }
    ensures few { length table.now ≤ MAX_NODES }
{
    let mut nodes = Vec::new(alloc);
    for i in 0..table.len() {
        let n = NodeId(i as u16);
        let pair = table.pair(n)?;
        let origin = table.origin(n)?;
        nodes.push((pair, origin))?;
    }
    Ok(nodes)
}

// The nodes of the rules, and those of the constraints behind them.
fn nodes_of(alloc: Global, rules: &[RuleRef], constraints: &[RuleRef]) -> Result<Vec<u16>, Memory>
    ensures { IfOk result (λ nodes. nodes.items ≡ nodes_of (rules.now ++ constraints.now)) }
{
    let mut nodes: Vec<u16> = rules.iter().map(|name| name.node).collect(alloc)?;
    for name in constraints {
        nodes.push(name.node)?;
    }
    Ok(nodes)
}

// The rules with the names, each with the number of the first step that has the pair of its node.
fn cited_rules(
    alloc: Global,
    state: &State,
    names: &[RuleRef],
    steps: &[Step],
) -> Result<Vec<(Rule, u32)>, Memory>
    requires there { All (IsRuleThere state.now) names.now }
    requires few { length steps.now ≤ MAX_NODES }
    ensures rules { IfOk result (λ rules. map (λ (r : RuleValue × ℕ). r.0) rules.items ≡ rules_at state.now names.now) }
    ensures cites { IfOk result (λ rules. map (λ (r : RuleValue × ℕ). r.1) rules.items ≡ map (cited_by state.now steps.now) names.now) }
{
    let mut rules = Vec::new(alloc);
    for i in 0..names.len() {
        let name = names[i];
        let pair = state.nodes().pair(NodeId(name.node))?;
        let rule = rule_of(alloc, &pair, name.dir)?;
        rules.push((rule, number_with(steps, &pair)))?;
    }
    Ok(rules)
}

// The number, from 1, of the first step with the pair; one more than there are steps where none has it.
fn number_with(steps: &[Step], pair: &Pair) -> u32
    requires { length steps.now ≤ MAX_NODES }
    ensures { result ≡ number_of_pair steps.now pair.now }
{
    for i in 0..steps.len() {
        if *steps[i].pair() == *pair {
            return i as u32 + 1;
        }
    }
    steps.len() as u32 + 1
}
