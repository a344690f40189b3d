// What is written of terms.
ghost use Rattle.std.specs.Prelude.{◌≡◌, ◌+◌, ◌<◌, ◌≤◌, ◌++◌, ◌∷◌, [], ◌^◌, OnOk, OnErr, IfOk, ℕ, nat_eq, length, replicate, take};
ghost use Rattle.std.specs.List.{list_any, list_all};
ghost use Rattle.kb_term.specs.Signature.{symbols_of_list};
ghost use Rattle.kb_term.specs.View.{tree_of};
ghost use Rattle.kb_text.specs.Terms.{is_digit, names_of, term_text as text_of, prefix_length, is_x_number as is_x_number_in, symbol_text, separator};

use kb_term::{Memory, Signature, Symbol, Term, push_number};
use std::alloc::Global;

// Adds so many letters x; some may stay after an error.
pub(crate) fn push_letters(out: &mut Vec<u8>, n: usize) -> Result<(), Memory>
    ensures ok { OnOk result (out.new.items ≡ out.old.items ++ replicate n 120) }
    ensures front { take (length out.old.items) out.new.items ≡ out.old.items }
{
    for i in 0..n {
        out.push(b'x')?;
    }
    Ok(())
}

pub(crate) fn are_letters(part: &[u8]) -> bool
    ensures { result ≡ list_all (λ b. nat_eq 120 b) part.now }
{
    part.iter().all(|b| *b == b'x')
}

fn are_digits(part: &[u8]) -> bool
    ensures { result ≡ list_all is_digit part.now }
{
    part.iter().all(|b| *b >= b'0' && *b <= b'9')
}

// Whether the name is n letters x and a number.
fn is_x_number(n: usize, name: &[u8]) -> bool
    ensures { result ≡ is_x_number_in n name.now }
{
    if name.len() <= n {
        return false;
    }
    are_letters(&name[..n]) && are_digits(&name[n..])
}

fn is_taken(symbols: &[(Vec<u8>, u8)], n: usize) -> bool
    ensures { result ≡ list_any (is_x_number_in n) (names_of (symbols_of_list symbols.now)) }
{
    for symbol in symbols {
        if is_x_number(n, &symbol.0) {
            return true;
        }
    }
    false
}

pub(crate) fn first_free(symbols: &[(Vec<u8>, u8)]) -> usize
    ensures { result ≡ prefix_length (names_of (symbols_of_list symbols.now)) }
{
    for n in 1..symbols.len() + 2 {
        if !is_taken(symbols, n) {
            return n;
        }
    }
    1
}

/// How many letters x stand before the number of a variable, so that no symbol's name looks like a variable.
pub fn prefix_of(signature: &Signature) -> usize
    ensures { result ≡ prefix_length (names_of signature.now) }
{
    first_free(signature.symbols())
}

fn push_symbol(out: &mut Vec<u8>, signature: &Signature, f: Symbol) -> Result<(), Memory>
    ensures ok { OnOk result (out.new.items ≡ out.old.items ++ symbol_text (names_of signature.now) f.0) }
    ensures err { OnErr result (out.new.items ≡ out.old.items) }
{
    let symbols = signature.symbols();
    if (f.0 as usize) < symbols.len() {
        out.extend_from_slice(&symbols[f.0 as usize].0)?;
    }
    Ok(())
}

// What stands before the argument with this number, from 0.
pub(crate) fn separator_before(i: usize) -> u8
    ensures { result ≡ separator i }
{
    if i == 0 { b'(' } else { b',' }
}

/// Adds the text of a term, whose variables have so many letters x before their number.
/// After want of memory the text is as before.
pub fn push_term(
    alloc: Global,
    out: &mut Vec<u8>,
    signature: &Signature,
    prefix: usize,
    t: &Term,
) -> Result<(), Memory>
    requires { prefix ≡ prefix_length (names_of signature.now) }
    ensures ok { OnOk result (out.new.items ≡ out.old.items ++ text_of (names_of signature.now) (tree_of t.now)) }
    ensures err { OnErr result (out.new.items ≡ out.old.items) }
{
    let before = out.len();
    let added = add_term(alloc, out, signature, prefix, t);
    if added.is_err() {
        out.truncate(before);
    }
    added
}

// The same, but that a part of the term's text may stay after an error.
fn add_term(
    alloc: Global,
    out: &mut Vec<u8>,
    signature: &Signature,
    prefix: usize,
    t: &Term,
) -> Result<(), Memory>
    requires { prefix ≡ prefix_length (names_of signature.now) }
    ensures ok { OnOk result (out.new.items ≡ out.old.items ++ text_of (names_of signature.now) (tree_of t.now)) }
    ensures front { take (length out.old.items) out.new.items ≡ out.old.items }
{
    match t {
        Term::Var(n) => {
            push_letters(out, prefix)?;
            push_number(alloc, out, *n as u64 + 1)
        }
        Term::App(f, arguments) => {
            push_symbol(out, signature, *f)?;
            let arguments = arguments.items();
            for (i, argument) in arguments.iter().enumerate() {
                out.push(separator_before(i))?;
                add_term(alloc, out, signature, prefix, argument)?;
            }
            if !arguments.is_empty() {
                out.push(b')')?;
            }
            Ok(())
        }
    }
}

/// The text of a term: without blanks, and a symbol of arity 0 without parentheses.
pub fn term_text(alloc: Global, signature: &Signature, t: &Term) -> Result<Vec<u8>, Memory>
    ensures { IfOk result (λ text. text.items ≡ text_of (names_of signature.now) (tree_of t.now)) }
{
    let mut out = Vec::new(alloc);
    push_term(alloc, &mut out, signature, prefix_of(signature), t)?;
    Ok(out)
}
