// Reading terms.
ghost use Rattle.std.specs.Prelude.{◌≡◌, ◌≤◌, ◌^◌, IfOk, IfErr, MatchOption, List, ℕ, drop, length, map, ⊤};
ghost use Rattle.kb_term.specs.Signature.{IsSignature};
ghost use Rattle.kb_term.specs.Tree.{Tree};
ghost use Rattle.kb_term.specs.View.{tree_of};
ghost use Rattle.kb_text.specs.Fields.{IsTextFault};
ghost use Rattle.kb_text.specs.Terms.{names_of, term_text};
ghost use Rattle.kb_checker.specs.Answers.{Answer};
ghost use Rattle.kb_report.specs.Sections.{BeginsWith, IsSectionFault, Items, ReadsLine};
ghost use Rattle.kb_goals.specs.Simplifying.{IsNumberedTerm, IsTermLine, IsTermsTextOf, IsTermsText};

use crate::front::read_front;
use crate::goals::ASKED;
use kb_checker::Answer;
use kb_report::{are_numbered, first_line, read_count, read_word};
use kb_term::{Memory, Signature, Term};
use kb_text::{TextFault, read_term};
use std::alloc::Global;

// The term that a line is.
fn term_of_line(alloc: Global, sig: &Signature, line: &[u8]) -> Result<Option<Term>, Memory>
    requires names { IsSignature sig.now }
    ensures { IfOk result (λ read. MatchOption read ((t : Tree) → ¬ IsTermLine sig.now line.now t) (λ t. IsTermLine sig.now line.now (tree_of t))) }
{
    let Some(term) = read_term(alloc, sig, line)? else {
        return Ok(None);
    };
    if !are_numbered(alloc, sig, &term, &term)? {
        return Ok(None);
    }
    Ok(Some(term))
}

// The term on the line that the text begins with, and how many bytes it takes.
fn next_term(alloc: Global, sig: &Signature, text: &[u8]) -> Result<Option<(Term, usize)>, Memory>
    requires names { IsSignature sig.now }
    ensures read { IfOk result (ReadsLine tree_of (IsNumberedTerm sig.now) (term_text (names_of sig.now)) text.now) }
    ensures size { IfOk result (λ read. MatchOption read ⊤ (λ p. p.1 ≤ length text.now)) }
{
    let Some((line, size)) = first_line(text) else {
        return Ok(None);
    };
    match term_of_line(alloc, sig, line)? {
        Some(term) => Ok(Some((term, size))),
        None => Ok(None),
    }
}

// So many terms, each on its line, and how many bytes they take.
fn read_lines(
    alloc: Global,
    sig: &Signature,
    count: usize,
    text: &[u8],
    first: u64,
) -> Result<(Vec<Term>, usize), TextFault>
    requires names { IsSignature sig.now }
    requires count { count ≤ 256 }
    requires first { first ≤ 2 ^ 63 }
    ensures read { IfOk result (λ p. BeginsWith (Items (IsNumberedTerm sig.now) (λ k. term_text (names_of sig.now)) count) text.now (map tree_of p.0.items) count (drop p.1 text.now)) }
    ensures size { IfOk result (λ p. p.1 ≤ length text.now) }
    ensures fault { IfErr result (IsSectionFault (Items (IsNumberedTerm sig.now) (λ k. term_text (names_of sig.now)) count) text.now first) }
{
    let mut terms = Vec::new(alloc);
    let mut at = 0;
    for k in 0..count {
        let (_, rest) = text.split_at(at);
        let Some((term, size)) = next_term(alloc, sig, rest)? else {
            return Err(TextFault::BadText(first + k as u64));
        };
        terms.push(term)?;
        at += size;
    }
    Ok((terms, at))
}

/// Reads an answer, in either version, and the terms behind it: a line `TERMS` with their number, at most 256; a line for each;
/// and the line `END`. Accepts exactly these texts.
///
/// The terms are over the answer's symbols and of at most size 512 and depth 64, with at most 64 variables each, which are
/// numbered by first occurrence.
///
/// # Errors
///
/// `BadText` with the number, from 1, of the first line that isn't of its form: the lines before it begin such a text, and with
/// it they begin none. It may be missing or have no line feed, and it may stand behind the last line. `Memory` for want of
/// memory.
///
/// The time is linear in the bytes, as `read_answer`'s is; an answer's end is looked for first.
pub fn read_terms(alloc: Global, bytes: &[u8]) -> Result<(Answer, Vec<Term>), TextFault>
    ensures read { IfOk result (λ r. IsTermsTextOf bytes.now r.0 (map tree_of r.1.items)) }
    ensures one { IfOk result (λ r. (b : Answer) (terms : List Tree) → IsTermsTextOf bytes.now b terms → (r.0 ≡ b) × (map tree_of r.1.items ≡ terms)) }
    ensures fault { IfErr result (IsTextFault IsTermsText bytes.now) }
{
    let (answer, size, lines) = read_front(alloc, bytes)?;
    let (_, from_count) = bytes.split_at(size);
    let at = lines as u64 + 1;
    let (count, line) = read_count(from_count, b"TERMS ", ASKED, at)?;
    let (_, from_terms) = from_count.split_at(line);
    let signature = answer.problem().signature();
    let (terms, size) = read_lines(alloc, signature, count, from_terms, at + 1)?;
    let (_, from_end) = from_terms.split_at(size);
    let at = at + 1 + count as u64;
    let end = read_word(from_end, b"END", at)?;
    if end < from_end.len() {
        return Err(TextFault::BadText(at + 1));
    }
    Ok((answer, terms))
}
