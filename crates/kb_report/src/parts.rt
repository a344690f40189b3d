// The parts of the text of a system, of several sections each.
ghost use Rattle.std.specs.Prelude.{◌≡◌, ◌≤◌, ◌∷◌, [], IfOk, IfErr, OnOk, codes, drop, length};
ghost use Rattle.kb_term.specs.Signature.{IsSignature};
ghost use Rattle.kb_term.specs.View.{equations_of_list};
ghost use Rattle.kb_checker.specs.Answers.{IsAnswer};
ghost use Rattle.kb_report.specs.Sections.{BeginsWith, IsEndFault, IsSectionFault, text_of};
ghost use Rattle.kb_report.specs.SystemSections.{CountedConstraints, CountedEquations, CountedRules, CountedSteps, ProblemPart, RulePart, part_values, with_count};

use crate::header::{LINES, read_count, read_word};
use crate::order::read_order;
use crate::sides::{read_equations, read_rules};
use crate::steps::read_steps;
use crate::symbols::read_symbols;
use crate::version::{Version, read_constraint_count};
use kb_cert::Certificate;
use kb_checker::Answer;
use kb_term::{MAX_EQUATIONS, Problem, Rule, Signature, Term};
use kb_text::TextFault;
use kb_trace::Trace;
use std::alloc::Global;

/// The most equations.
const EQUATIONS: u32 = MAX_EQUATIONS as u32;

/// What stands behind the problem.
#[derive(Drop)]
pub(crate) struct Parts {
    pub(crate) rules: Vec<(Rule, u32)>,
    pub(crate) constraints: Vec<(Rule, u32)>,
    pub(crate) cert: Certificate,
    pub(crate) trace: Trace,
}

/// The equations behind the line that says how many there are, and how many lines and bytes they take with it.
fn read_counted_equations(
    alloc: Global,
    sig: &Signature,
    text: &[u8],
    first: u64,
) -> Result<(Vec<(Term, Term)>, u64, usize), TextFault>
    requires names { IsSignature sig.now }
    requires first { first ≤ 9000 }
    ensures read { IfOk result (λ p. BeginsWith (CountedEquations sig.now) text.now (with_count (equations_of_list p.0.items)) p.1 (drop p.2 text.now)) }
    ensures lines { IfOk result (λ p. p.1 ≤ 257) }
    ensures size { IfOk result (λ p. p.2 ≤ length text.now) }
    ensures fault { IfErr result (IsSectionFault (CountedEquations sig.now) text.now first) }
{
    let (count, line) = read_count(text, b"EQUATIONS ", EQUATIONS, first)?;
    let (_, rest) = text.split_at(line);
    let (equations, size) = read_equations(alloc, sig, count, rest, first + 1)?;
    Ok((equations, 1 + count as u64, line + size))
}

/// The rules behind the line that says how many there are, and how many lines and bytes they take with it.
fn read_counted_rules(
    alloc: Global,
    sig: &Signature,
    text: &[u8],
    first: u64,
) -> Result<(Vec<(Rule, u32)>, u64, usize), TextFault>
    requires names { IsSignature sig.now }
    requires first { first ≤ 9000 }
    ensures read { IfOk result (λ p. BeginsWith (CountedRules sig.now) text.now (with_count p.0.items) p.1 (drop p.2 text.now)) }
    ensures lines { IfOk result (λ p. p.1 ≤ 4097) }
    ensures size { IfOk result (λ p. p.2 ≤ length text.now) }
    ensures fault { IfErr result (IsSectionFault (CountedRules sig.now) text.now first) }
{
    let (count, line) = read_count(text, b"RULES ", LINES, first)?;
    let (_, rest) = text.split_at(line);
    let (rules, size) = read_rules(alloc, sig, count, rest, first + 1)?;
    Ok((rules, 1 + count as u64, line + size))
}

/// The constraints, and how many lines and bytes they take with the line that says how many there are, if the version has it.
fn read_constraints(
    alloc: Global,
    version: Version,
    sig: &Signature,
    text: &[u8],
    first: u64,
) -> Result<(Vec<(Rule, u32)>, u64, usize), TextFault>
    requires names { IsSignature sig.now }
    requires first { first ≤ 9000 }
    ensures read { IfOk result (λ p. BeginsWith (CountedConstraints version sig.now) text.now (with_count p.0.items) p.1 (drop p.2 text.now)) }
    ensures lines { IfOk result (λ p. p.1 ≤ 4097) }
    ensures size { IfOk result (λ p. p.2 ≤ length text.now) }
    ensures fault { IfErr result (IsSectionFault (CountedConstraints version sig.now) text.now first) }
{
    let (count, lines, line) = read_constraint_count(version, text, first)?;
    let (_, rest) = text.split_at(line);
    let (rules, size) = read_rules(alloc, sig, count, rest, first + lines as u64)?;
    Ok((rules, lines as u64 + count as u64, line + size))
}

/// The trace behind the line that says how many steps it has, and how many lines and bytes it takes with it.
fn read_counted_steps(
    alloc: Global,
    sig: &Signature,
    text: &[u8],
    first: u64,
) -> Result<(Trace, u64, usize), TextFault>
    requires names { IsSignature sig.now }
    requires first { first ≤ 9000 }
    ensures read { IfOk result (λ p. BeginsWith (CountedSteps sig.now) text.now (with_count p.0) p.1 (drop p.2 text.now)) }
    ensures lines { IfOk result (λ p. p.1 ≤ 4097) }
    ensures size { IfOk result (λ p. p.2 ≤ length text.now) }
    ensures fault { IfErr result (IsSectionFault (CountedSteps sig.now) text.now first) }
{
    let (count, line) = read_count(text, b"TRACE ", LINES, first)?;
    let (_, rest) = text.split_at(line);
    let (trace, size) = read_steps(alloc, sig, count, rest, first + 1)?;
    Ok((trace, 1 + count as u64, line + size))
}

/// The symbols and the equations, and how many lines and bytes they take.
///
/// # Errors
///
/// `BadText` with the number of the first line that isn't theirs, where the text begins with the line `first` of a whole text.
/// `Memory` for want of memory.
pub(crate) fn read_problem(
    alloc: Global,
    text: &[u8],
    first: u64,
) -> Result<(Problem, u64, usize), TextFault>
    requires first { first ≤ 100 }
    ensures read { IfOk result (λ p. BeginsWith ProblemPart text.now (p.0.signature, with_count p.0.equations) p.1 (drop p.2 text.now)) }
    ensures lines { IfOk result (λ p. p.1 ≤ 258) }
    ensures size { IfOk result (λ p. p.2 ≤ length text.now) }
    ensures fault { IfErr result (IsSectionFault ProblemPart text.now first) }
{
    let (sig, line) = read_symbols(alloc, text, first)?;
    sig.names_are_identifiers();
    let (_, rest) = text.split_at(line);
    let (equations, lines, size) = read_counted_equations(alloc, &sig, rest, first + 1)?;
    Ok((Problem::new(sig, equations), 1 + lines, line + size))
}

/// The rules, the constraints, the certificate and the trace, and how many lines and bytes they take.
///
/// # Errors
///
/// `BadText` with the number of the first line that isn't theirs, where the text begins with the line `first` of a whole text.
/// `Memory` for want of memory.
pub(crate) fn read_parts(
    alloc: Global,
    version: Version,
    sig: &Signature,
    text: &[u8],
    first: u64,
) -> Result<(Parts, u64, usize), TextFault>
    requires first { first ≤ 400 }
    ensures read { IfOk result (λ p. BeginsWith (RulePart version sig.now) text.now (part_values p.0.rules.items p.0.constraints.items p.0.cert p.0.trace) p.1 (drop p.2 text.now)) }
    ensures lines { IfOk result (λ p. p.1 ≤ 12300) }
    ensures size { IfOk result (λ p. p.2 ≤ length text.now) }
    ensures fault { IfErr result (IsSectionFault (RulePart version sig.now) text.now first) }
{
    sig.names_are_identifiers();
    let (rules, rule_lines, rule_size) = read_counted_rules(alloc, sig, text, first)?;
    let at = first + rule_lines;
    let (_, rest) = text.split_at(rule_size);
    let (constraints, lines, size) = read_constraints(alloc, version, sig, rest, at)?;
    let at = at + lines;
    let (_, from_order) = rest.split_at(size);
    let (cert, line) = read_order(alloc, sig, from_order, at)?;
    let (_, from_steps) = from_order.split_at(line);
    let (trace, step_lines, step_size) = read_counted_steps(alloc, sig, from_steps, at + 1)?;
    let parts = Parts {
        rules,
        constraints,
        cert,
        trace,
    };
    let lines = rule_lines + lines + 1 + step_lines;
    Ok((parts, lines, rule_size + size + line + step_size))
}

/// Tests that the text is the last line, and that nothing stands behind it.
///
/// # Errors
///
/// `BadText` with the number of the first line that isn't so, where the text begins with the line `first` of a whole text.
pub(crate) fn read_end(text: &[u8], first: u64) -> Result<(), TextFault>
    requires first { first ≤ 20000 }
    ensures read { OnOk result (text.now ≡ text_of (codes "END" ∷ [])) }
    ensures fault { IfErr result (IsEndFault (codes "END") text.now first) }
{
    let end = read_word(text, b"END", first)?;
    if end < text.len() {
        return Err(TextFault::BadText(first + 1));
    }
    Ok(())
}

/// The answer of the problem and of what stands behind it.
pub(crate) fn answer_of(problem: Problem, parts: Parts) -> Answer
    requires { IsAnswer (record { problem = problem; rules = parts.rules.items; constraints = parts.constraints.items; cert = parts.cert; trace = parts.trace }) }
    ensures { result ≡ record { problem = problem; rules = parts.rules.items; constraints = parts.constraints.items; cert = parts.cert; trace = parts.trace } }
{
    Answer::new(
        problem,
        parts.rules,
        parts.constraints,
        parts.cert,
        parts.trace,
    )
}
