// The rules of an answer as a problem.
ghost use Rattle.std.specs.Prelude.{◌≡◌, ◌≤◌, ◌++◌, ◌∷◌, IfOk, OnOk, flat_map, length, max};
ghost use Rattle.std.specs.List.{range_with_len};
ghost use Rattle.kb_term.specs.Tree.{variables_of};
ghost use Rattle.kb_text.specs.Terms.{names_of, prefix_length, variable_text};
ghost use Rattle.kb_export.specs.ReadBack.{SpellsSame};
ghost use Rattle.kb_export.specs.RuleTexts.{arrow_line, bound_of, rules_problem, rules_text, sides_of, variable_bound_of};

use kb_checker::Answer;
use kb_term::{MAX_EQUATIONS, MAX_PROBLEM_BYTES, Memory, Rule, Signature, Term, variable_bound};
use kb_text::{prefix_of, push_term};
use std::alloc::Global;

// One more than the greatest variable of the rule.
fn rule_bound(rule: &Rule) -> u32
    ensures { result ≡ max (bound_of (variables_of rule.now.left)) (bound_of (variables_of rule.now.right)) }
{
    variable_bound(rule.left()).max(variable_bound(rule.right()))
}

// One more than the greatest variable of the rules.
fn variable_count(rules: &[(Rule, u32)]) -> u32
    ensures { result ≡ variable_bound_of (sides_of rules.now) }
{
    let mut count = 0;
    for (rule, _) in rules {
        count = rule_bound(rule).max(count);
    }
    count
}

fn push_variables(
    alloc: Global,
    out: &mut Vec<u8>,
    signature: &Signature,
    prefix: usize,
    count: u32,
) -> Result<(), Memory>
    requires prefix { prefix ≡ prefix_length (names_of signature.now) }
    requires few { count ≤ 64 }
    ensures { OnOk result (out.new.items ≡ out.old.items ++ flat_map (λ n. 32 ∷ variable_text (names_of signature.now) n) (range_with_len 0 count)) }
{
    for n in 0..count {
        out.push(b' ')?;
        push_term(alloc, out, signature, prefix, &Term::Var(n as u16))?;
    }
    Ok(())
}

fn push_rule(
    alloc: Global,
    out: &mut Vec<u8>,
    signature: &Signature,
    prefix: usize,
    rule: &Rule,
) -> Result<(), Memory>
    requires { prefix ≡ prefix_length (names_of signature.now) }
    ensures { OnOk result (out.new.items ≡ out.old.items ++ arrow_line (names_of signature.now) (rule.now.left, rule.now.right)) }
{
    push_term(alloc, out, signature, prefix, rule.left())?;
    out.extend_from_slice(b" -> ")?;
    push_term(alloc, out, signature, prefix, rule.right())?;
    out.push(b'\n')?;
    Ok(())
}

fn push_rules(
    alloc: Global,
    out: &mut Vec<u8>,
    signature: &Signature,
    prefix: usize,
    rules: &[(Rule, u32)],
) -> Result<(), Memory>
    requires { prefix ≡ prefix_length (names_of signature.now) }
    ensures { OnOk result (out.new.items ≡ out.old.items ++ flat_map (arrow_line (names_of signature.now)) (sides_of rules.now)) }
{
    for (rule, _) in rules {
        push_rule(alloc, out, signature, prefix, rule)?;
    }
    Ok(())
}

fn rule_lines(alloc: Global, answer: &Answer) -> Result<Vec<u8>, Memory>
    ensures { IfOk result (λ text. text.items ≡ rules_text (rules_problem answer.now)) }
{
    let signature = answer.problem().signature();
    let prefix = prefix_of(signature);
    let rules = answer.rules();
    let mut out = Vec::from_slice(alloc, b"(VAR")?;
    let count = variable_count(rules);
    push_variables(alloc, &mut out, signature, prefix, count)?;
    out.extend_from_slice(b")\n(RULES\n")?;
    push_rules(alloc, &mut out, signature, prefix, rules)?;
    out.extend_from_slice(b")\n")?;
    Ok(out)
}

/// The rules of an answer in the layout of problems that other tools read too: a section of variables, and a section of rules
/// with a line for each rule, whose sides are joined by `->` and written as by `term_text`.
///
/// At most 256 rules whose text has at most 1,048,576 bytes are read back as a problem with these rules as its equations. The
/// time is linear in the rules.
pub fn trs_text(alloc: Global, answer: &Answer) -> Result<Vec<u8>, Memory>
    ensures text { IfOk result (λ text. text.items ≡ rules_text (rules_problem answer.now)) }
    ensures read { IfOk result (λ text. length answer.now.rules ≤ MAX_EQUATIONS → length text.items ≤ MAX_PROBLEM_BYTES → SpellsSame text.items (rules_problem answer.now)) }
{
    answer.problem().signature().names_are_identifiers();
    rule_lines(alloc, answer)
}
