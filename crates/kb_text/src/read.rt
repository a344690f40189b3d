// Reading the text of a term.
ghost use Rattle.std.specs.Prelude.{◌≡◌, ◌≤◌, ◌<◌, ◌+◌, ◌++◌, ◌∷◌, ◌↔◌, ℕ, List, Some, IfOk, IsTrue, MatchOption, [], decimal, drop, length, map, option_map, replicate, take};
ghost use Rattle.kb_term.specs.Signature.{IsSignature};
ghost use Rattle.kb_term.specs.Tree.{Tree};
ghost use Rattle.kb_term.specs.View.{tree_of};
ghost use Rattle.kb_text.specs.Terms.{TermSpelled, names_of, prefix_length};
ghost use Rattle.kb_text.specs.TermReading.{AreArgumentsRead, BeginsWithNone, BeginsWithTerm, IsInName, IsClosed, IsNameEnd, closing_text, ends_name};

use crate::text::{are_letters, first_free, separator_before};
use kb_term::{MAX_VARIABLES, Memory, Signature, Term, Terms, term_limit};
use std::alloc::Global;

/// The greatest depth of a term.
const DEPTH: usize = 64;

/// The greatest number of a variable, from 1.
const VARIABLES: u16 = MAX_VARIABLES as u16;

fn is_name_end(b: u8) -> bool
    ensures { result ≡ ends_name b }
{
    b == b'(' || b == b')' || b == b','
}

// How many bytes the name takes that the text begins with.
fn name_length(text: &[u8]) -> usize
    ensures within { result ≤ length text.now }
    ensures name { IsInName (take result text.now) }
    ensures end { IsNameEnd (drop result text.now) }
{
    for i in 0..text.len() {
        if is_name_end(text[i]) {
            return i;
        }
    }
    text.len()
}

// The variable that is written with these digits, its number and one.
fn variable_of_digits(digits: &[u8]) -> Option<u16>
    ensures { MatchOption result ((n : ℕ) → n < 64 → ¬ (decimal (n + 1) ≡ digits.now)) (λ n. (n < 64) × (decimal (n + 1) ≡ digits.now)) }
{
    if digits.is_empty() || digits.len() > 2 {
        return None;
    }
    let first = digits[0];
    if first < b'1' || first > b'9' {
        return None;
    }
    let tens = (first - b'0') as u16;
    if digits.len() == 1 {
        return Some(tens - 1);
    }
    let second = digits[1];
    if second < b'0' || second > b'9' {
        return None;
    }
    let number = tens * 10 + (second - b'0') as u16;
    if number > VARIABLES {
        return None;
    }
    Some(number - 1)
}

// The variable whose text the name is, with so many letters x before its digits.
fn variable_named(prefix: usize, name: &[u8]) -> Option<u16>
    ensures { MatchOption result ((n : ℕ) → n < 64 → ¬ (replicate prefix 120 ++ decimal (n + 1) ≡ name.now)) (λ n. (n < 64) × (replicate prefix 120 ++ decimal (n + 1) ≡ name.now)) }
{
    if name.len() <= prefix {
        return None;
    }
    let (letters, digits) = name.split_at(prefix);
    if !are_letters(letters) {
        return None;
    }
    variable_of_digits(digits)
}

fn begins_with(text: &[u8], b: u8) -> bool
    ensures { IsTrue result ↔ (text.now ≡ b ∷ drop 1 text.now) }
{
    !text.is_empty() && text[0] == b
}

fn is_at_name_end(text: &[u8]) -> bool
    ensures { IsTrue result ↔ IsNameEnd text.now }
{
    text.is_empty() || is_name_end(text[0])
}

// How many bytes the closing parenthesis takes that stands behind so many arguments; none where it is missing, or where
// a name goes on behind it.
fn closing_length(text: &[u8], arguments: usize) -> Option<usize>
    requires { IsNameEnd text.now }
    ensures { MatchOption result ((rest : List ℕ) → IsNameEnd rest → ¬ (text.now ≡ closing_text arguments ++ rest)) (IsClosed text.now arguments) }
{
    if arguments == 0 {
        return Some(0);
    }
    if !begins_with(text, b')') {
        return None;
    }
    let (_, rest) = text.split_at(1);
    if is_at_name_end(rest) { Some(1) } else { None }
}

// Reads so many arguments of at most this depth, with the signs between them, and adds them to the list. How many bytes
// they take; none where the text begins with no such arguments.
#[cycle(read)]
fn read_arguments(
    alloc: Global,
    signature: &Signature,
    prefix: usize,
    text: &[u8],
    depth: usize,
    arity: usize,
    arguments: &mut Vec<Term>,
) -> Result<Option<usize>, Memory>
    requires names { IsSignature signature.now }
    requires prefix { prefix ≡ prefix_length (names_of signature.now) }
    requires end { IsNameEnd text.now }
    requires empty { arguments.old.items ≡ [] }
    ensures { IfOk result (AreArgumentsRead signature.now text.now depth arity (map tree_of arguments.new.items)) }
{
    let mut at = 0;
    for i in 0..arity {
        let (_, tail) = text.split_at(at);
        if !begins_with(tail, separator_before(i)) {
            return Ok(None);
        }
        let (_, rest) = tail.split_at(1);
        let Some((argument, size)) = read_from(alloc, signature, prefix, rest, depth)? else {
            return Ok(None);
        };
        arguments.push(argument)?;
        at += 1 + size;
    }
    let (_, tail) = text.split_at(at);
    match closing_length(tail, arity) {
        Some(size) => Ok(Some(at + size)),
        None => Ok(None),
    }
}

// The term of at most this depth that the text begins with, and how many bytes it takes.
#[cycle(read)]
fn read_from(
    alloc: Global,
    signature: &Signature,
    prefix: usize,
    text: &[u8],
    depth: usize,
) -> Result<Option<(Term, usize)>, Memory>
    requires names { IsSignature signature.now }
    requires prefix { prefix ≡ prefix_length (names_of signature.now) }
    ensures { IfOk result (λ found. MatchOption found (BeginsWithNone signature.now text.now depth) (λ p. BeginsWithTerm signature.now text.now depth (tree_of p.0) p.1)) }
{
    if depth == 0 {
        return Ok(None);
    }
    let (name, rest) = text.split_at(name_length(text));
    if let Some(n) = variable_named(prefix, name) {
        return Ok(Some((Term::Var(n), name.len())));
    }
    let Some(symbol) = signature.symbol_named(name) else {
        return Ok(None);
    };
    let arity = signature.arity(symbol) as usize;
    let mut arguments = Vec::new(alloc);
    match read_arguments(
        alloc,
        signature,
        prefix,
        rest,
        depth - 1,
        arity,
        &mut arguments,
    )? {
        Some(size) => {
            let t = Term::App(symbol, Terms::new(arguments));
            Ok(Some((t, name.len() + size)))
        }
        None => Ok(None),
    }
}

/// The term that the bytes spell, as `term_text` writes it: without blanks, a symbol of arity 0 without parentheses,
/// a variable as the signature's letters `x` and its number from 1, without leading zeros. None where they spell no
/// term over the signature within the limits: size 512, depth 64, variables `x1` to `x64`. The time is linear in the
/// bytes, and the recursion at most 64 deep.
pub fn read_term(alloc: Global, signature: &Signature, bytes: &[u8]) -> Result<Option<Term>, Memory>
    ensures read { IfOk result (λ read. MatchOption read ((t : Tree) → ¬ TermSpelled signature.now bytes.now t) (λ t. TermSpelled signature.now bytes.now (tree_of t))) }
    ensures same { IfOk result (λ read. (t : Tree) → TermSpelled signature.now bytes.now t → option_map tree_of read ≡ Some t) }
{
    let prefix = first_free(signature.symbols());
    let Some((t, size)) = read_from(alloc, signature, prefix, bytes, DEPTH)? else {
        return Ok(None);
    };
    if size < bytes.len() {
        return Ok(None);
    }
    if term_limit(&t).is_some() {
        return Ok(None);
    }
    Ok(Some(t))
}
