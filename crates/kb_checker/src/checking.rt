// Checking an answer.
ghost use Rattle.std.specs.Prelude.{◌≡◌, ◌∷◌, [], ◌≤◌, ◌↔◌, All, IfOk, IsTrue, MatchOption, length};
ghost use Rattle.kb_linear.specs.Limits.{AreMeasurable};
ghost use Rattle.kb_term.specs.Pair.{variables_of_pair};
ghost use Rattle.kb_term.specs.View.{equations_of_list, pair_of};
ghost use Rattle.kb_checker.specs.Answers.{IsAnswer, IsGoodAnswer, IsTraced, IsOriented, rules_of};
ghost use Rattle.kb_checker.specs.Verdicts.{FailsFirst, FirstUnproved, IsProved, pair_reason, equation_reason, IsVerdict};

use crate::answer::Answer;
use crate::closing::first_unclosed;
use crate::joining::{Failure, join_failure};
use crate::verdict::{Checked, Reject};
use kb_cert::{Certificate, orients};
use kb_rewrite::System;
use kb_term::{Memory, Pair, Rule, Term, canonical};
use kb_trace::{Step, TraceFault, replay_trace};
use std::alloc::Global;
use std::slice;

/// Checks an answer, whoever made it.
///
/// `Accepted` where each trace step is right, each rule and each constraint has the canonical pair of the step that it cites,
/// the certificate orders the constraints and the rules, the terms of each overlap of the rules have one normal form, and so
/// have the sides of each equation. Then the rules halt on every term over the signature, are confluent, and prove exactly
/// what the equations prove. Else `Rejected` with the first item that fails, group by group in this order, and its number in
/// its group.
///
/// A cited step is found by its number, and rules by an index of their left sides. So apart from normalising it takes time linear
/// in the trace, the rules and the constraints, and what the index takes for each position of a left side, with one unification
/// for each two rules that it finds to agree somewhere and each position of the outer left side.
pub fn check(alloc: Global, a: &Answer) -> Result<Checked, Memory>
    ensures verdict { IfOk result (IsVerdict a.now) }
    ensures good { IfOk result (λ checked. checked ≡ Checked.Accepted → IsGoodAnswer a.now) }
{
    match replay_trace(alloc, a.problem(), a.trace()) {
        Ok(_) => {}
        Err(TraceFault::BadStep(n)) => return Ok(Checked::Rejected(Reject::BadStep, n)),
        Err(TraceFault::Memory) => return Err(Memory),
    }
    let steps = a.trace().steps();
    if let Some(n) = first_untraced(alloc, steps, a.rules())? {
        return Ok(Checked::Rejected(Reject::Untraced, n));
    }
    if let Some(n) = first_untraced(alloc, steps, a.constraints())? {
        return Ok(Checked::Rejected(Reject::UntracedConstraint, n));
    }
    if let Some(n) = first_unoriented(a.cert(), a.constraints()) {
        return Ok(Checked::Rejected(Reject::ConstraintNotOriented, n));
    }
    if let Some(n) = first_unoriented(a.cert(), a.rules()) {
        return Ok(Checked::Rejected(Reject::NotOriented, n));
    }
    let rules = rules_alone(alloc, a.rules())?;
    let system = System::indexed(alloc, &rules)?;
    if let Some((failure, n)) = first_unclosed(alloc, &system)? {
        return Ok(Checked::Rejected(pair_reject(failure), n));
    }
    if let Some((failure, n)) = first_unproved(alloc, &system, a.problem().equations())? {
        return Ok(Checked::Rejected(equation_reject(failure), n));
    }
    Ok(Checked::Accepted)
}

fn pair_reject(failure: Failure) -> Reject
    ensures { result ≡ pair_reason failure }
{
    match failure {
        Failure::Large => Reject::PairLarge,
        Failure::Steps => Reject::PairSteps,
        Failure::Different => Reject::NotJoined,
    }
}

fn equation_reject(failure: Failure) -> Reject
    ensures { result ≡ equation_reason failure }
{
    match failure {
        Failure::Large => Reject::EquationLarge,
        Failure::Steps => Reject::EquationSteps,
        Failure::Different => Reject::NotProved,
    }
}

/// The rules without the steps that they cite, in their order.
///
/// # Errors
///
/// Want of memory.
pub fn rules_alone(alloc: Global, rules: &[(Rule, u32)]) -> Result<Vec<Rule>, Memory>
    ensures { IfOk result (λ alone. alone.items ≡ rules_of rules.now) }
{
    let mut alone = Vec::new(alloc);
    for rule in rules {
        alone.push(rule.0.clone()?)?;
    }
    Ok(alone)
}

/// The number, from 1, of the first rule or constraint that hasn't the canonical pair of the step that it cites.
fn first_untraced(
    alloc: Global,
    trace: &[Step],
    rules: &[(Rule, u32)],
) -> Result<Option<u64>, Memory>
    requires { All (λ r. length (variables_of_pair r.0.left r.0.right) ≤ 64) rules.now }
    ensures { IfOk result (λ o. MatchOption o (All (IsTraced trace.now) rules.now) (FailsFirst (IsTraced trace.now) (λ r. IsTraced trace.now r → ⊥) rules.now)) }
{
    for k in 0..rules.len() {
        let cited = &rules[k];
        if !is_traced(alloc, trace, &cited.0, cited.1)? {
            return Ok(Some((k + 1) as u64));
        }
    }
    Ok(None)
}

/// Whether the step with the number is there and has the canonical pair of the rule.
fn is_traced(alloc: Global, trace: &[Step], rule: &Rule, cited: u32) -> Result<bool, Memory>
    requires { length (variables_of_pair rule.now.left rule.now.right) ≤ 64 }
    ensures { IfOk result (λ b. IsTrue b ↔ IsTraced trace.now (rule.now, cited)) }
{
    if cited == 0 || cited as usize > trace.len() {
        return Ok(false);
    }
    let pair = trace[cited as usize - 1].pair();
    let first = pair.first();
    let second = pair.second();
    match canonical(alloc, rule.left(), rule.right())? {
        None => Ok(false),
        Some(found) => Ok(found.has_sides(first, second)),
    }
}

/// The number, from 1, of the first rule or constraint that the certificate doesn't order.
fn first_unoriented(cert: &Certificate, rules: &[(Rule, u32)]) -> Option<u64>
    requires { AreMeasurable (rules_of rules.now) }
    ensures { MatchOption result (All (IsOriented cert.now) rules.now) (FailsFirst (IsOriented cert.now) (λ r. IsOriented cert.now r → ⊥) rules.now) }
{
    for k in 0..rules.len() {
        let cited = &rules[k];
        if !orients(cert, slice::from_ref(&cited.0)) {
            return Some((k + 1) as u64);
        }
    }
    None
}

/// The first equation whose sides don't have one normal form: why, and its number from 1.
fn first_unproved(
    alloc: Global,
    system: &System<'_>,
    equations: &[(Term, Term)],
) -> Result<Option<(Failure, u64)>, Memory>
    ensures { IfOk result (λ o. MatchOption o (All (IsProved system.now) (equations_of_list equations.now)) (λ f. FirstUnproved system.now f.0 (equations_of_list equations.now) f.1)) }
{
    for k in 0..equations.len() {
        let equation = &equations[k];
        match join_failure(alloc, system, &equation.0, &equation.1)? {
            None => {}
            Some(failure) => return Ok(Some((failure, (k + 1) as u64))),
        }
    }
    Ok(None)
}
