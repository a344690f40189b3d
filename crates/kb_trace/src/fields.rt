// Reading the fields of a step's line.
ghost use Rattle.std.specs.Prelude.{◌≡◌, ◌+◌, ◌-◌, ◌<◌, ◌≤◌, ◌^◌, ◌↔◌, ℕ, List, IfOk, IsTrue, MatchOption, decimal, length, map};
ghost use Rattle.kb_term.specs.Pair.{Pair};
ghost use Rattle.kb_term.specs.Signature.{IsSignature};
ghost use Rattle.kb_term.specs.View.{tree_of};
ghost use Rattle.kb_term.specs.declared.origin.RuleRef.{RuleRef};
ghost use Rattle.kb_term.specs.declared.origin.Origin.{Origin};
ghost use Rattle.kb_term.specs.declared.origin.Origin.TheVariants.{Input, Rewrite, Overlap};
ghost use Rattle.kb_overlap.specs.Trace.{TraceStep};
ghost use Rattle.kb_trace.specs.TraceText.{is_position};
ghost use Rattle.kb_trace.specs.Reading.{IsNumberText, IsLabelled, IsPositionText, IsPositionIn, IsOriginIn, IsOwnPair, IsPairIn, IsStepIn};

use crate::trace::Step;
use kb_term::{
    MAX_EQUATIONS, MAX_NODES, Memory, Origin, Pair, Position, RuleRef, Signature, Term, canonical,
    pair_limit,
};
use kb_text::{Fields, is_word, read_number, read_term};
use std::alloc::Global;

/// The greatest number of an equation.
const EQUATIONS: u16 = MAX_EQUATIONS as u16;

/// The greatest number of a step.
pub(crate) const STEPS: u16 = MAX_NODES as u16;

/// The longest position.
const LONGEST: usize = 63;

/// The greatest number of an argument.
const ARGUMENTS: u16 = 8;

/// The number, from the least to the greatest, that the field is.
fn number_between(field: &[u8], least: u16, greatest: u16) -> Option<u16>
    ensures { MatchOption result ((n : ℕ) → ¬ IsNumberText field.now least greatest n) (IsNumberText field.now least greatest) }
{
    match read_number(field) {
        None => None,
        Some(number) => {
            if number < least as u32 {
                return None;
            }
            if number > greatest as u32 {
                return None;
            }
            Some(number as u16)
        }
    }
}

/// Whether the field is the number.
fn is_number(field: &[u8], number: u16) -> bool
    ensures { IsTrue result ↔ (decimal number ≡ field.now) }
{
    match number_between(field, number, number) {
        None => false,
        Some(_) => true,
    }
}

/// The number behind the word at a place.
fn labelled(fields: &Fields, at: usize, word: &[u8], least: u16, greatest: u16) -> Option<u16>
    requires inside { at + 1 < length fields.now }
    requires small { at ≤ 16 }
    ensures { MatchOption result ((n : ℕ) → ¬ IsLabelled fields.now at word.now least greatest n) (IsLabelled fields.now at word.now least greatest) }
{
    if fields.field(at) != word {
        return None;
    }
    number_between(fields.field(at + 1), least, greatest)
}

/// The position of the argument numbers: at most 63, from 1 to 8.
fn position_of(alloc: Global, numbers: &Fields) -> Result<Option<Position>, Memory>
    ensures { IfOk result (λ read. MatchOption read ((p : List ℕ) → IsTrue (is_position p) → ¬ (map decimal p ≡ numbers.now)) (λ p. IsTrue (is_position p) × (map decimal p ≡ numbers.now))) }
{
    if numbers.len() > LONGEST {
        return Ok(None);
    }
    let mut position = Position::root(alloc);
    for k in 0..numbers.len() {
        let Some(number) = number_between(numbers.field(k), 1, ARGUMENTS) else {
            return Ok(None);
        };
        position.push(number as u8)?;
    }
    Ok(Some(position))
}

/// The position that the field is: e for the root, else argument numbers joined by dots.
fn read_position(alloc: Global, field: &[u8]) -> Result<Option<Position>, Memory>
    ensures { IfOk result (λ read. MatchOption read ((p : List ℕ) → ¬ IsPositionText field.now p) (IsPositionText field.now)) }
{
    if is_word(field, b"e") {
        return Ok(Some(Position::root(alloc)));
    }
    let numbers = Fields::cut(alloc, field, b'.')?;
    position_of(alloc, &numbers)
}

/// The position behind the word `at` at a place.
fn labelled_position(alloc: Global, fields: &Fields, at: usize) -> Result<Option<Position>, Memory>
    requires inside { at + 1 < length fields.now }
    requires small { at ≤ 16 }
    ensures { IfOk result (λ read. MatchOption read ((p : List ℕ) → ¬ IsPositionIn fields.now at p) (IsPositionIn fields.now at)) }
{
    if fields.field(at) != b"at".as_slice() {
        return Ok(None);
    }
    read_position(alloc, fields.field(at + 1))
}

fn read_input(fields: &Fields) -> Option<Origin>
    requires { length fields.now ≡ 7 }
    ensures { MatchOption result ((i : ℕ) → ¬ IsOriginIn fields.now (Input i)) (IsOriginIn fields.now) }
{
    match labelled(fields, 1, b"input", 1, EQUATIONS) {
        None => None,
        Some(i) => Some(Origin::Input(i)),
    }
}

fn read_rewrite(alloc: Global, fields: &Fields) -> Result<Option<Origin>, Memory>
    requires { length fields.now ≡ 15 }
    ensures { IfOk result (λ read. MatchOption read ((a w : ℕ) (p : List ℕ) (r : RuleRef) → ¬ IsOriginIn fields.now (Rewrite a w p r)) (IsOriginIn fields.now)) }
{
    let Some(node) = labelled(fields, 1, b"rewrite", 1, STEPS) else {
        return Ok(None);
    };
    let Some(side) = labelled(fields, 3, b"side", 0, 1) else {
        return Ok(None);
    };
    let Some(position) = labelled_position(alloc, fields, 5)? else {
        return Ok(None);
    };
    let Some(by) = labelled(fields, 7, b"by", 1, STEPS) else {
        return Ok(None);
    };
    let Some(dir) = labelled(fields, 9, b"dir", 0, 1) else {
        return Ok(None);
    };
    let rule = RuleRef {
        node: by,
        dir: dir as u8,
    };
    Ok(Some(Origin::Rewrite {
        node,
        side: side as u8,
        position,
        rule,
    }))
}

fn read_overlap(alloc: Global, fields: &Fields) -> Result<Option<Origin>, Memory>
    requires { length fields.now ≡ 15 }
    ensures { IfOk result (λ read. MatchOption read ((a b : RuleRef) (p : List ℕ) → ¬ IsOriginIn fields.now (Overlap a b p)) (IsOriginIn fields.now)) }
{
    let Some(one) = labelled(fields, 1, b"overlap", 1, STEPS) else {
        return Ok(None);
    };
    let Some(one_dir) = labelled(fields, 3, b"dir", 0, 1) else {
        return Ok(None);
    };
    let Some(other) = labelled(fields, 5, b"with", 1, STEPS) else {
        return Ok(None);
    };
    let Some(other_dir) = labelled(fields, 7, b"dir", 0, 1) else {
        return Ok(None);
    };
    let Some(position) = labelled_position(alloc, fields, 9)? else {
        return Ok(None);
    };
    let outer = RuleRef {
        node: one,
        dir: one_dir as u8,
    };
    let inner = RuleRef {
        node: other,
        dir: other_dir as u8,
    };
    Ok(Some(Origin::Overlap {
        outer,
        inner,
        position,
    }))
}

/// The origin between the first field and the last four.
fn read_origin(alloc: Global, fields: &Fields) -> Result<Option<Origin>, Memory>
    ensures { IfOk result (λ read. MatchOption read ((o : Origin) → ¬ IsOriginIn fields.now o) (IsOriginIn fields.now)) }
{
    if fields.len() == 7 {
        return Ok(read_input(fields));
    }
    if fields.len() != 15 {
        return Ok(None);
    }
    match read_rewrite(alloc, fields)? {
        Some(origin) => Ok(Some(origin)),
        None => read_overlap(alloc, fields),
    }
}

/// The pair of the two terms, where it is canonical as it stands.
fn own_pair(alloc: Global, first: &Term, second: &Term) -> Result<Option<Pair>, Memory>
    ensures { IfOk result (λ read. MatchOption read ((p : Pair) → ¬ IsOwnPair (tree_of first.now) (tree_of second.now) p) (IsOwnPair (tree_of first.now) (tree_of second.now))) }
{
    if pair_limit(first, second).is_some() {
        return Ok(None);
    }
    match canonical(alloc, first, second)? {
        None => Ok(None),
        Some(pair) => {
            if pair.has_sides(first, second) {
                Ok(Some(pair))
            } else {
                Ok(None)
            }
        }
    }
}

/// The place of the last four fields.
fn last_four(fields: &Fields) -> usize
    requires { 4 ≤ length fields.now }
    ensures place { result + 4 ≡ length fields.now }
    ensures room { result + 4 < 2 ^ 64 }
{
    fields.len() - 4
}

/// The pair in the last four fields.
fn read_pair(alloc: Global, signature: &Signature, fields: &Fields) -> Result<Option<Pair>, Memory>
    requires names { IsSignature signature.now }
    requires four { 4 ≤ length fields.now }
    ensures { IfOk result (λ read. MatchOption read ((p : Pair) → ¬ IsPairIn signature.now fields.now (length fields.now - 4) p) (IsPairIn signature.now fields.now (length fields.now - 4))) }
{
    let at = last_four(fields);
    let colon = fields.field(at);
    if !is_word(colon, b":") {
        return Ok(None);
    }
    let sign = fields.field(at + 2);
    if !is_word(sign, b"=") {
        return Ok(None);
    }
    let first = fields.field(at + 1);
    let Some(s) = read_term(alloc, signature, first)? else {
        return Ok(None);
    };
    let second = fields.field(at + 3);
    let Some(t) = read_term(alloc, signature, second)? else {
        return Ok(None);
    };
    own_pair(alloc, &s, &t)
}

/// The step with the number that the fields of a line are.
pub(crate) fn step_of(
    alloc: Global,
    signature: &Signature,
    number: u16,
    fields: &Fields,
) -> Result<Option<Step>, Memory>
    requires { IsSignature signature.now }
    ensures { IfOk result (λ read. MatchOption read ((s : TraceStep) → ¬ IsStepIn signature.now number fields.now s) (IsStepIn signature.now number fields.now)) }
{
    if fields.len() < 5 {
        return Ok(None);
    }
    if !is_number(fields.field(0), number) {
        return Ok(None);
    }
    let Some(origin) = read_origin(alloc, fields)? else {
        return Ok(None);
    };
    let Some(pair) = read_pair(alloc, signature, fields)? else {
        return Ok(None);
    };
    Ok(Some(Step::new(origin, pair)))
}
