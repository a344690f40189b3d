// Reading equations and rules.
ghost use Rattle.std.specs.Prelude.{◌≡◌, ◌≤◌, ◌<◌, ◌^◌, ◌↔◌, ℕ, IfOk, IfErr, IsTrue, MatchOption, List, decimal, drop, length, ⊤};
ghost use Rattle.kb_term.specs.Rule.{Rule, rule_between};
ghost use Rattle.kb_term.specs.Signature.{IsSignature, IsEquationWithinLimits, IsTermWithinLimits};
ghost use Rattle.kb_term.specs.Tree.{Tree};
ghost use Rattle.kb_term.specs.View.{tree_of, equations_of_list};
ghost use Rattle.kb_text.specs.Terms.{names_of};
ghost use Rattle.kb_checker.specs.Answers.{IsRuleForm};
ghost use Rattle.kb_report.specs.Sections.{BeginsWith, IsSectionFault, ReadsLine};
ghost use Rattle.kb_report.specs.SystemSections.{Equations, Rules, equation_body, rule_body, AreSidesIn, IsEquationLine, IsRuleLine};

use crate::header::first_line;
use kb_term::{MAX_NODES, Memory, Rule, Signature, Term, numbered_rule, pair_limit};
use kb_text::{Fields, TextFault, is_word, read_number, read_term};
use std::alloc::Global;

/// The greatest number of a step.
const STEPS: u32 = MAX_NODES as u32;

fn has_sides(rule: &Rule, left: &Term, right: &Term) -> bool
    ensures { IsTrue result ↔ (rule.now ≡ rule_between (tree_of left.now) (tree_of right.now)) }
{
    *rule.left() == *left && *rule.right() == *right
}

/// Whether the variables of two terms are at most 64 and numbered by first occurrence, left side first.
///
/// # Errors
///
/// Want of memory.
pub fn are_numbered(
    alloc: Global,
    sig: &Signature,
    left: &Term,
    right: &Term,
) -> Result<bool, Memory>
    requires left { IsTermWithinLimits sig.now (tree_of left.now) }
    requires right { IsTermWithinLimits sig.now (tree_of right.now) }
    ensures { IfOk result (λ holds. IsTrue holds ↔ IsEquationWithinLimits sig.now (tree_of left.now, tree_of right.now)) }
{
    if pair_limit(left, right).is_some() {
        return Ok(false);
    }
    let rule = numbered_rule(alloc, left, right)?;
    Ok(has_sides(&rule, left, right))
}

/// The two terms in the first three fields, with the sign between them.
fn read_sides(
    alloc: Global,
    sig: &Signature,
    fields: &Fields,
    sign: &[u8],
) -> Result<Option<(Term, Term)>, Memory>
    requires names { IsSignature sig.now }
    requires three { 3 ≤ length fields.now }
    ensures { IfOk result (λ read. MatchOption read ((e : Tree × Tree) → ¬ AreSidesIn sig.now fields.now sign.now e) (λ e. AreSidesIn sig.now fields.now sign.now (tree_of e.0, tree_of e.1))) }
{
    if !is_word(fields.field(1), sign) {
        return Ok(None);
    }
    let Some(left) = read_term(alloc, sig, fields.field(0))? else {
        return Ok(None);
    };
    let Some(right) = read_term(alloc, sig, fields.field(2))? else {
        return Ok(None);
    };
    if !are_numbered(alloc, sig, &left, &right)? {
        return Ok(None);
    }
    Ok(Some((left, right)))
}

/// The equation that a line is.
fn equation_of(alloc: Global, sig: &Signature, line: &[u8]) -> Result<Option<(Term, Term)>, Memory>
    requires names { IsSignature sig.now }
    ensures { IfOk result (λ read. MatchOption read ((e : Tree × Tree) → ¬ IsEquationLine sig.now line.now e) (λ e. IsEquationLine sig.now line.now (tree_of e.0, tree_of e.1))) }
{
    let fields = Fields::cut(alloc, line, b' ')?;
    if fields.len() != 3 {
        return Ok(None);
    }
    read_sides(alloc, sig, &fields, b"=")
}

/// The number of a step, from 1, that the field is.
fn step_number(field: &[u8]) -> Option<u32>
    ensures { MatchOption result ((n : ℕ) → 1 ≤ n → n ≤ MAX_NODES → ¬ (decimal n ≡ field.now)) (λ n. (1 ≤ n) × (n ≤ MAX_NODES) × (decimal n ≡ field.now)) }
{
    let Some(number) = read_number(field) else {
        return None;
    };
    if number == 0 {
        return None;
    }
    if number > STEPS {
        return None;
    }
    Some(number)
}

/// The rule that a line is, and the step that it cites.
fn rule_of_line(alloc: Global, sig: &Signature, line: &[u8]) -> Result<Option<(Rule, u32)>, Memory>
    requires names { IsSignature sig.now }
    ensures { IfOk result (λ read. MatchOption read ((r : Rule × ℕ) → ¬ IsRuleLine sig.now line.now r) (IsRuleLine sig.now line.now)) }
{
    let fields = Fields::cut(alloc, line, b' ')?;
    if fields.len() != 5 {
        return Ok(None);
    }
    if !is_word(fields.field(3), b":") {
        return Ok(None);
    }
    let Some(step) = step_number(fields.field(4)) else {
        return Ok(None);
    };
    match read_sides(alloc, sig, &fields, b"->")? {
        Some((left, right)) => Ok(Some((Rule::new(left, right), step))),
        None => Ok(None),
    }
}

/// The equation on the line that the text begins with, and how many bytes it takes.
fn next_equation(
    alloc: Global,
    sig: &Signature,
    text: &[u8],
) -> Result<Option<((Term, Term), usize)>, Memory>
    requires names { IsSignature sig.now }
    ensures read { IfOk result (ReadsLine (λ e. (tree_of e.0, tree_of e.1)) (IsEquationWithinLimits sig.now) (equation_body (names_of sig.now)) text.now) }
    ensures size { IfOk result (λ read. MatchOption read ⊤ (λ p. p.1 ≤ length text.now)) }
{
    let Some((line, size)) = first_line(text) else {
        return Ok(None);
    };
    match equation_of(alloc, sig, line)? {
        Some(equation) => Ok(Some((equation, size))),
        None => Ok(None),
    }
}

/// The rule on the line that the text begins with, and how many bytes it takes.
fn next_rule(
    alloc: Global,
    sig: &Signature,
    text: &[u8],
) -> Result<Option<((Rule, u32), usize)>, Memory>
    requires names { IsSignature sig.now }
    ensures read { IfOk result (ReadsLine (λ rule. rule) (IsRuleForm sig.now) (rule_body (names_of sig.now)) text.now) }
    ensures size { IfOk result (λ read. MatchOption read ⊤ (λ p. p.1 ≤ length text.now)) }
{
    let Some((line, size)) = first_line(text) else {
        return Ok(None);
    };
    match rule_of_line(alloc, sig, line)? {
        Some(rule) => Ok(Some((rule, size))),
        None => Ok(None),
    }
}

/// So many equations, each on its line, and how many bytes they take.
///
/// # Errors
///
/// `BadText` with the number of the first line that isn't an equation's, where the text begins with the line `first` of a whole
/// text. `Memory` for want of memory.
pub fn read_equations(
    alloc: Global,
    sig: &Signature,
    count: usize,
    text: &[u8],
    first: u64,
) -> Result<(Vec<(Term, Term)>, usize), TextFault>
    requires names { IsSignature sig.now }
    requires count { count ≤ MAX_NODES }
    requires first { first ≤ 2 ^ 63 }
    ensures read { IfOk result (λ p. BeginsWith (Equations sig.now count) text.now (equations_of_list p.0.items) count (drop p.1 text.now)) }
    ensures size { IfOk result (λ p. p.1 ≤ length text.now) }
    ensures fault { IfErr result (IsSectionFault (Equations sig.now count) text.now first) }
{
    let mut equations = Vec::new(alloc);
    let mut at = 0;
    for k in 0..count {
        let (_, rest) = text.split_at(at);
        let Some((equation, size)) = next_equation(alloc, sig, rest)? else {
            return Err(TextFault::BadText(first + k as u64));
        };
        equations.push(equation)?;
        at += size;
    }
    Ok((equations, at))
}

/// So many rules, each on its line, and how many bytes they take.
pub(crate) fn read_rules(
    alloc: Global,
    sig: &Signature,
    count: usize,
    text: &[u8],
    first: u64,
) -> Result<(Vec<(Rule, u32)>, usize), TextFault>
    requires names { IsSignature sig.now }
    requires count { count ≤ MAX_NODES }
    requires first { first ≤ 10000 }
    ensures read { IfOk result (λ p. BeginsWith (Rules sig.now count) text.now p.0.items count (drop p.1 text.now)) }
    ensures size { IfOk result (λ p. p.1 ≤ length text.now) }
    ensures fault { IfErr result (IsSectionFault (Rules sig.now count) text.now first) }
{
    let mut rules = Vec::new(alloc);
    let mut at = 0;
    for k in 0..count {
        let (_, rest) = text.split_at(at);
        let Some((rule, size)) = next_rule(alloc, sig, rest)? else {
            return Err(TextFault::BadText(first + k as u64));
        };
        rules.push(rule)?;
        at += size;
    }
    Ok((rules, at))
}
