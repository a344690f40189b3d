// Reading the text of a certificate.
ghost use Rattle.std.specs.Prelude.{◌≡◌, ◌∷◌, ◌≤◌, ◌<◌, ◌+◌, ◌++◌, ℕ, List, Bool, true, false, take, drop, length, map, decimal, IfOk, MatchOption, IsTrue, ◌↔◌, slice_index};
ghost use Rattle.kb_term.specs.Signature.{SymbolEntry, IsSignature};
ghost use Rattle.kb_term.specs.declared.term.Symbol.{Symbol};
ghost use Rattle.kb_linear.specs.Limits.{interpretation_of};
ghost use Rattle.kb_kbo.specs.KnuthBendix.{KboOrder};
ghost use Rattle.kb_cert.specs.declared.certificate.Certificate.{Certificate};
ghost use Rattle.kb_cert.specs.CertificateText.{CertSpelled};
ghost use Rattle.kb_cert.specs.Reading.{IsFieldEnd, SpellsNames, SpellsNumbers, IsRowText, SpellsRows, AreDifferent, IsPrecedenceText, AreRows, IsWeightsText, IsOrderText};

use crate::certificate::Certificate;
use kb_kbo::{Kbo, MAX_WEIGHT};
use kb_linear::Interp;
use kb_lpo::{Precedence, is_listed};
use kb_term::{Memory, Signature, Symbol};
use std::alloc::Global;

/// The greatest coefficient of a text.
const MAX_COEFFICIENT: u8 = 3;

/// Where the field ends that the text begins with: at the first such byte, or at the text's end.
fn field_end(text: &[u8], b: u8) -> usize
    ensures within { result ≤ length text.now }
    ensures end { IsFieldEnd b (take result text.now) (drop result text.now) }
{
    for i in 0..text.len() {
        if text[i] == b {
            return i;
        }
    }
    text.len()
}

/// The field behind the byte that the text begins with, and the rest behind the field; none where it begins otherwise.
fn split_field(text: &[u8], b: u8) -> Option<(&[u8], &[u8])>
    ensures { MatchOption result ((tail : List ℕ) → ¬ (text.now ≡ b ∷ tail)) (λ p. IsFieldEnd b p.0.now p.1.now × (text.now ≡ b ∷ (p.0.now ++ p.1.now))) }
{
    if text.is_empty() {
        return None;
    }
    if text[0] != b {
        return None;
    }
    let rest = &text[1..];
    Some(rest.split_at(field_end(rest, b)))
}

/// Whether the text is the number in decimal digits.
fn is_decimal(text: &[u8], n: u8) -> bool
    requires { n ≤ 15 }
    ensures { IsTrue result ↔ (decimal n ≡ text.now) }
{
    if n < 10 {
        if text.len() != 1 {
            return false;
        }
        return text[0] == b'0' + n;
    }
    if text.len() != 2 {
        return false;
    }
    if text[0] != b'1' {
        return false;
    }
    text[1] == b'0' + (n - 10)
}

/// The number up to 15 that the text is in decimal digits.
fn read_number(text: &[u8]) -> Option<u8>
    ensures { MatchOption result ((n : ℕ) → n ≤ 15 → ¬ (decimal n ≡ text.now)) (λ n. (n ≤ 15) × (decimal n ≡ text.now)) }
{
    for n in 0..16 {
        if is_decimal(text, n) {
            return Some(n);
        }
    }
    None
}

/// Adds the symbols whose names the text is, so many, each behind a space; false where it is none.
fn read_symbols(
    sig: &Signature,
    text: &[u8],
    count: usize,
    symbols: &mut Vec<Symbol>,
) -> Result<bool, Memory>
    requires { IsSignature sig.now }
    ensures { IfOk result (λ found. SpellsNames sig.now count text.now symbols.old.items symbols.new.items found) }
{
    if count == 0 {
        return Ok(text.is_empty());
    }
    let Some((field, rest)) = split_field(text, b' ') else {
        return Ok(false);
    };
    match sig.symbol_named(field) {
        Some(f) => {
            symbols.push(f)?;
            let found = read_symbols(sig, rest, count - 1, symbols)?;
            Ok(found)
        }
        None => Ok(false),
    }
}

/// The number from 1 to the greatest that the text is in decimal digits.
fn read_positive(text: &[u8], most: u8) -> Option<u8>
    requires { most ≤ 15 }
    ensures { MatchOption result ((n : ℕ) → (1 ≤ n) × (n ≤ most) → ¬ (decimal n ≡ text.now)) (λ n. ((1 ≤ n) × (n ≤ most)) × (decimal n ≡ text.now)) }
{
    match read_number(text) {
        Some(n) if n >= 1 && n <= most => Some(n),
        _ => None,
    }
}

/// Adds the numbers from 1 to the greatest that the text is, so many, each behind a comma; false where it is none.
fn read_numbers(text: &[u8], most: u8, count: usize, numbers: &mut Vec<u8>) -> Result<bool, Memory>
    requires { most ≤ 15 }
    ensures { IfOk result (λ found. SpellsNumbers most count text.now numbers.old.items numbers.new.items found) }
{
    if count == 0 {
        return Ok(text.is_empty());
    }
    let Some((field, rest)) = split_field(text, b',') else {
        return Ok(false);
    };
    match read_positive(field, most) {
        Some(n) => {
            numbers.push(n)?;
            let found = read_numbers(rest, most, count - 1, numbers)?;
            Ok(found)
        }
        None => Ok(false),
    }
}

/// The row that the text is: a constant and so many coefficients.
fn read_row(alloc: Global, text: &[u8], arity: u8) -> Result<Option<(u8, Vec<u8>)>, Memory>
    ensures { IfOk result (λ read. MatchOption read ((row : ℕ × List ℕ) → ¬ IsRowText arity text.now row) (λ row. IsRowText arity text.now (row.0, row.1.items))) }
{
    let (field, rest) = text.split_at(field_end(text, b','));
    match read_number(field) {
        Some(constant) => {
            let mut coefficients = Vec::new(alloc);
            if read_numbers(rest, MAX_COEFFICIENT, arity as usize, &mut coefficients)? {
                Ok(Some((constant, coefficients)))
            } else {
                Ok(None)
            }
        }
        None => Ok(None),
    }
}

/// Adds the rows that the text is, one for each symbol from `f` on, each behind a space; false where it is none.
fn read_rows(
    alloc: Global,
    sig: &Signature,
    f: usize,
    text: &[u8],
    rows: &mut Vec<(u8, Vec<u8>)>,
) -> Result<bool, Memory>
    requires { f ≤ length sig.now }
    ensures { IfOk result (λ found. SpellsRows (drop f sig.now) text.now rows.old.items rows.new.items found) }
{
    if f == sig.count() {
        return Ok(text.is_empty());
    }
    let Some((field, rest)) = split_field(text, b' ') else {
        return Ok(false);
    };
    match read_row(alloc, field, sig.arity(Symbol(f as u8)))? {
        Some(row) => {
            rows.push(row)?;
            let found = read_rows(alloc, sig, f + 1, rest, rows)?;
            Ok(found)
        }
        None => Ok(false),
    }
}

/// Whether no symbol stands there twice.
fn are_different(symbols: &[Symbol]) -> bool
    ensures { IsTrue result ↔ AreDifferent (map (λ (f : Symbol). f.0) symbols.now) }
{
    for i in 0..symbols.len() {
        if is_listed(&symbols[i + 1..], symbols[i]) {
            return false;
        }
    }
    true
}

fn read_precedence(
    alloc: Global,
    sig: &Signature,
    text: &[u8],
) -> Result<Option<Precedence>, Memory>
    ensures { IfOk result (λ read. MatchOption read ((symbols : List ℕ) → ¬ IsPrecedenceText sig.now text.now symbols) (IsPrecedenceText sig.now text.now)) }
{
    let count = sig.symbols().len();
    let mut symbols = Vec::new(alloc);
    if !read_symbols(sig, text, count, &mut symbols)? {
        return Ok(None);
    }
    if !are_different(&symbols) {
        return Ok(None);
    }
    Ok(Some(Precedence::new(symbols)))
}

fn read_interpretation(
    alloc: Global,
    sig: &Signature,
    text: &[u8],
) -> Result<Option<Interp>, Memory>
    ensures { IfOk result (λ read. MatchOption read ((rows : List (ℕ × List ℕ)) → ¬ AreRows sig.now text.now rows) (AreRows sig.now text.now)) }
{
    let mut rows = Vec::new(alloc);
    if read_rows(alloc, sig, 0, text, &mut rows)? {
        Ok(Some(Interp::new(rows)))
    } else {
        Ok(None)
    }
}

/// The weights that the text is, so many, parted by commas.
fn read_weights(alloc: Global, text: &[u8], count: usize) -> Result<Option<Vec<u8>>, Memory>
    requires { 0 < count }
    ensures { IfOk result (λ read. MatchOption read ((weights : List ℕ) → ¬ IsWeightsText count text.now weights) (λ weights. IsWeightsText count text.now weights.items)) }
{
    let (field, rest) = text.split_at(field_end(text, b','));
    match read_positive(field, MAX_WEIGHT) {
        Some(first) => {
            let mut weights = Vec::new(alloc);
            weights.push(first)?;
            if read_numbers(rest, MAX_WEIGHT, count - 1, &mut weights)? {
                Ok(Some(weights))
            } else {
                Ok(None)
            }
        }
        None => Ok(None),
    }
}

fn read_order(alloc: Global, sig: &Signature, text: &[u8]) -> Result<Option<Kbo>, Memory>
    ensures { IfOk result (λ read. MatchOption read ((order : KboOrder) → ¬ IsOrderText sig.now text.now order) (IsOrderText sig.now text.now)) }
{
    if sig.count() == 0 {
        if !text.is_empty() {
            return Ok(None);
        }
        let precedence = Precedence::new(Vec::new(alloc));
        return Ok(Some(Kbo::new(Vec::new(alloc), precedence)));
    }
    let Some((field, rest)) = split_field(text, b' ') else {
        return Ok(None);
    };
    match read_weights(alloc, field, sig.count())? {
        Some(weights) => match read_precedence(alloc, sig, rest)? {
            Some(precedence) => Ok(Some(Kbo::new(weights, precedence))),
            None => Ok(None),
        },
        None => Ok(None),
    }
}

/// The certificate that a line without its line feed spells; none where it spells no certificate of the signature within the limits.
pub fn read_cert(alloc: Global, sig: &Signature, line: &[u8]) -> Result<Option<Certificate>, Memory>
    ensures { IfOk result (λ read. MatchOption read ((c : Certificate) → ¬ CertSpelled sig.now line.now c) (CertSpelled sig.now line.now)) }
{
    if let Some(text) = line.strip_prefix(b"LPO".as_slice()) {
        return match read_precedence(alloc, sig, text)? {
            Some(prec) => Ok(Some(Certificate::Lpo(prec))),
            None => Ok(None),
        };
    }
    if let Some(text) = line.strip_prefix(b"LINEAR".as_slice()) {
        return match read_interpretation(alloc, sig, text)? {
            Some(i) => Ok(Some(Certificate::Linear(i))),
            None => Ok(None),
        };
    }
    if let Some(text) = line.strip_prefix(b"KBO".as_slice()) {
        return match read_order(alloc, sig, text)? {
            Some(order) => Ok(Some(Certificate::Kbo(order))),
            None => Ok(None),
        };
    }
    Ok(None)
}
