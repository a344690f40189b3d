// Simplifying terms.
ghost use Rattle.std.specs.Prelude.{◌≡◌, ◌++◌, IfOk, OnOk, All, map};
ghost use Rattle.kb_term.specs.View.{tree_of};
ghost use Rattle.kb_text.specs.Terms.{names_of};
ghost use Rattle.kb_checker.specs.Answers.{IsGoodAnswer, rules_of as rules_of_answer};
ghost use Rattle.kb_goals.specs.Simplifying.{IsNumberedTerm, IsSimplified, AreSimplified, AreRightForms, HaveOneForm, simplified_line, simplified_lines, simplify_text as text_of_simplified};

use crate::decided::reason_word;
use crate::deciding::rules_of;
use kb_checker::Answer;
use kb_decide::{Reason, reason_of};
use kb_rewrite::{Normal, normal_form};
use kb_term::{Memory, Rule, Signature, Term};
use kb_text::{Fields, term_text};
use std::alloc::Global;

/// What a term is simplified to.
#[derive(Drop)]
pub enum Simplified {
    /// The normal form, and how many steps lead to it.
    Normal { steps: u32, term: Term },
    /// The limit that is passed before there is one.
    Unknown(Reason),
}

/// The normal form of the term: while it has a redex, it is rewritten at the first position in preorder at which a rule applies,
/// by the first such rule.
///
/// `Normal` with the number of steps, at most 10,000. `Unknown` with the limit that is passed: a redex is left after 10,000
/// steps, or the result of one of them is larger than 512 or else deeper than 64. Where each rule's left side holds the
/// variables of its right side, there is one such answer.
///
/// # Errors
///
/// Want of memory.
pub fn simplify(alloc: Global, rules: &[Rule], term: &Term) -> Result<Simplified, Memory>
    ensures { IfOk result (IsSimplified rules.now (tree_of term.now)) }
{
    match normal_form(alloc, rules, term)? {
        Normal::Form(term, steps) => Ok(Simplified::Normal { steps, term }),
        Normal::Long(_) => Ok(Simplified::Unknown(Reason::Steps)),
        Normal::Large(limit) => Ok(Simplified::Unknown(reason_of(limit))),
    }
}

/// What each of the terms is simplified to by the rules of a good answer, as `simplify` does it.
///
/// The equations of the answer's problem prove a term equal to its normal form, and two terms with normal forms equal exactly where
/// these are the same. That an answer is good is what `check` says by `Accepted`; the terms that `read_terms` gives are over its
/// symbols.
///
/// # Errors
///
/// Want of memory.
pub fn simplify_terms(
    alloc: Global,
    answer: &Answer,
    terms: &[Term],
) -> Result<Vec<Simplified>, Memory>
    requires good { IsGoodAnswer answer.now }
    requires terms { All (IsNumberedTerm answer.now.problem.signature) (map tree_of terms.now) }
    ensures simplified { IfOk result (λ simplified. AreSimplified (rules_of_answer answer.now.rules) (map tree_of terms.now) simplified.items) }
    ensures right { IfOk result (λ simplified. AreRightForms answer.now.problem.equations (rules_of_answer answer.now.rules) (map tree_of terms.now) simplified.items) }
    ensures one { IfOk result (λ simplified. HaveOneForm answer.now.problem.equations (map tree_of terms.now) simplified.items) }
{
    let rules = rules_of(alloc, answer)?;
    let mut simplified = Vec::new(alloc);
    for k in 0..terms.len() {
        simplified.push(simplify(alloc, &rules, &terms[k])?)?;
    }
    Ok(simplified)
}

// What becomes of the term with the number.
fn push_simplified(
    alloc: Global,
    out: &mut Vec<u8>,
    signature: &Signature,
    number: u64,
    simplified: &Simplified,
) -> Result<(), Memory>
    ensures { OnOk result (out.new.items ≡ out.old.items ++ simplified_line (names_of signature.now) number simplified.now) }
{
    let mut line = Fields::new(alloc);
    line.number(alloc, number)?;
    match simplified {
        Simplified::Normal { steps, term } => {
            line.number(alloc, *steps as u64)?;
            line.push(term_text(alloc, signature, term)?)?;
        }
        Simplified::Unknown(reason) => {
            line.word(alloc, b"UNKNOWN")?;
            line.word(alloc, reason_word(*reason))?;
        }
    }
    line.line_to(out)
}

fn push_each(
    alloc: Global,
    out: &mut Vec<u8>,
    signature: &Signature,
    simplified: &[Simplified],
) -> Result<(), Memory>
    ensures { OnOk result (out.new.items ≡ out.old.items ++ simplified_lines (names_of signature.now) 1 simplified.now) }
{
    for k in 0..simplified.len() {
        push_simplified(alloc, out, signature, (k + 1) as u64, &simplified[k])?;
    }
    Ok(())
}

/// The one spelling of what terms are simplified to, numbered from 1: the number of steps and the normal form, or `UNKNOWN` with
/// the limit that was passed.
///
/// # Errors
///
/// Want of memory.
pub fn simplify_text(
    alloc: Global,
    sig: &Signature,
    simplified: &[Simplified],
) -> Result<Vec<u8>, Memory>
    ensures { IfOk result (λ text. text.items ≡ text_of_simplified sig.now simplified.now) }
{
    let mut out = Vec::from_slice(alloc, b"MKBTT SIMPLIFY 1\n")?;
    push_each(alloc, &mut out, sig, simplified)?;
    out.extend_from_slice(b"END\n")?;
    Ok(out)
}
