// Reading the line of the symbols.
ghost use Rattle.std.specs.Prelude.{◌≡◌, ◌≤◌, ◌<◌, ◌↔◌, ℕ, IfOk, IfErr, IsTrue, MatchOption, drop, get_or, length};
ghost use Rattle.kb_term.specs.Identifier.{IsIdentifier, begins_otherwise as begins_otherwise_in, is_unbroken as is_unbroken_text, is_white_space};
ghost use Rattle.kb_term.specs.Signature.{IsSignature, Signature, symbols_of_list};
ghost use Rattle.kb_report.specs.Sections.{BeginsWith, IsSectionFault};
ghost use Rattle.kb_report.specs.SystemSections.{Symbols, AreEntries, AreNoEntries, IsEntry, IsNoEntry, IsSymbolsLine};

use crate::header::first_line;
use kb_term::{MAX_NAME_BYTES, MAX_SYMBOLS, Memory, Signature};
use kb_text::{Fields, TextFault, is_word};
use std::alloc::Global;

/// The most symbols, and the word before them.
const FIELDS: usize = MAX_SYMBOLS + 1;

fn is_white(b: u8) -> bool
    ensures { result ≡ is_white_space b }
{
    b == b' ' || b == b'\t' || b == b'\n' || b == b'\r'
}

/// Whether the text begins with white space or with a mark of the problem text.
fn begins_otherwise(text: &[u8]) -> bool
    requires { 0 < length text.now }
    ensures { result ≡ begins_otherwise_in text.now }
{
    is_white(text[0])
        || text.starts_with(b"->=".as_slice())
        || text.starts_with(b"->".as_slice())
        || text.starts_with(b"==".as_slice())
        || text.starts_with(b"|".as_slice())
        || text.starts_with(b"(".as_slice())
        || text.starts_with(b")".as_slice())
        || text.starts_with(b",".as_slice())
        || text.starts_with(b"\"".as_slice())
}

fn is_unbroken(bytes: &[u8]) -> bool
    ensures { result ≡ is_unbroken_text bytes.now }
{
    for i in 0..bytes.len() {
        let (_, rest) = bytes.split_at(i);
        if begins_otherwise(rest) {
            return false;
        }
    }
    true
}

/// Whether the bytes are an identifier of at most 64 bytes.
fn is_name(bytes: &[u8]) -> bool
    ensures { IsTrue result ↔ (IsIdentifier bytes.now × (length bytes.now ≤ 64)) }
{
    if bytes.is_empty() || bytes.len() > MAX_NAME_BYTES {
        return false;
    }
    if !is_unbroken(bytes) {
        return false;
    }
    std::str::from_utf8(bytes).is_ok()
}

/// Whether no name is that of a symbol before it.
fn is_new(symbols: &[(Vec<u8>, u8)], i: usize) -> bool
    requires { i < length symbols.now }
    ensures { IsTrue result ↔ ((j : ℕ) (d : _) → j < i → ¬ ((get_or symbols.now j d).0.items ≡ (get_or symbols.now i d).0.items)) }
{
    for j in 0..i {
        if symbols[j].0.as_slice() == symbols[i].0.as_slice() {
            return false;
        }
    }
    true
}

/// Whether the names are different identifiers of at most 64 bytes.
fn are_names(symbols: &[(Vec<u8>, u8)]) -> bool
    ensures { IsTrue result ↔ IsSignature (symbols_of_list symbols.now) }
{
    for i in 0..symbols.len() {
        if !is_name(&symbols[i].0) {
            return false;
        }
        if !is_new(symbols, i) {
            return false;
        }
    }
    true
}

/// The name before the last slash of a field, and the arity behind it.
fn read_entry(alloc: Global, field: &[u8]) -> Result<Option<(Vec<u8>, u8)>, Memory>
    ensures { IfOk result (λ read. MatchOption read (IsNoEntry field.now) (λ f. IsEntry field.now (record { name = f.0.items; arity = f.1 }))) }
{
    if field.len() < 2 {
        return Ok(None);
    }
    let (name, arity) = field.split_at(field.len() - 2);
    if arity[0] != b'/' {
        return Ok(None);
    }
    let digit = arity[1];
    if digit < b'0' {
        return Ok(None);
    }
    if digit > b'8' {
        return Ok(None);
    }
    Ok(Some((Vec::from_slice(alloc, name)?, digit - b'0')))
}

/// The symbols that the fields behind the first are.
fn read_entries(alloc: Global, fields: &Fields) -> Result<Option<Vec<(Vec<u8>, u8)>>, Memory>
    ensures { IfOk result (λ read. MatchOption read (AreNoEntries (drop 1 fields.now)) (λ fs. AreEntries (drop 1 fields.now) (symbols_of_list fs.items))) }
{
    let mut symbols = Vec::new(alloc);
    for k in 1..fields.len() {
        let Some(symbol) = read_entry(alloc, fields.field(k))? else {
            return Ok(None);
        };
        symbols.push(symbol)?;
    }
    Ok(Some(symbols))
}

/// The symbols that a line lists behind its first word.
fn symbols_of(alloc: Global, line: &[u8]) -> Result<Option<Signature>, Memory>
    ensures { IfOk result (λ read. MatchOption read ((s : Signature) → ¬ IsSymbolsLine line.now s) (IsSymbolsLine line.now)) }
{
    let fields = Fields::cut(alloc, line, b' ')?;
    if fields.len() == 0 {
        return Ok(None);
    }
    if fields.len() > FIELDS {
        return Ok(None);
    }
    if !is_word(fields.field(0), b"SYMBOLS") {
        return Ok(None);
    }
    let Some(symbols) = read_entries(alloc, &fields)? else {
        return Ok(None);
    };
    if !are_names(&symbols) {
        return Ok(None);
    }
    Ok(Some(Signature::new(symbols)))
}

/// The symbols on the line that the text begins with, and how many bytes it takes. The time is linear in the bytes but for the
/// names, which are compared with each other.
///
/// # Errors
///
/// `BadText(first)` where the text begins with another line or with none: `first` is the number of that line in a whole text.
/// `Memory` for want of memory.
pub fn read_symbols(alloc: Global, text: &[u8], first: u64) -> Result<(Signature, usize), TextFault>
    ensures read { IfOk result (λ p. BeginsWith Symbols text.now p.0 1 (drop p.1 text.now)) }
    ensures size { IfOk result (λ p. p.1 ≤ length text.now) }
    ensures fault { IfErr result (IsSectionFault Symbols text.now first) }
{
    let Some((line, size)) = first_line(text) else {
        return Err(TextFault::BadText(first));
    };
    match symbols_of(alloc, line)? {
        Some(signature) => Ok((signature, size)),
        None => Err(TextFault::BadText(first)),
    }
}
