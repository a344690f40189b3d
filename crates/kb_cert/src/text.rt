// The text of a certificate.
ghost use Rattle.std.specs.Prelude.{◌≡◌, ◌++◌, ℕ, OnOk, IfOk, IsTrue, length, map, All, ◌<◌};
ghost use Rattle.kb_term.specs.Signature.{SymbolEntry};
ghost use Rattle.kb_term.specs.declared.term.Symbol.{Symbol};
ghost use Rattle.kb_linear.specs.Limits.{interpretation_of};
ghost use Rattle.kb_cert.specs.CertificateText.{cert_text as text_of, is_certificate, each_behind, name_at, interp_text, weight_fields};

use crate::certificate::Certificate;
use kb_term::{Memory, Signature, Symbol, push_number};
use std::alloc::Global;

/// Adds the numbers, parted by commas.
fn push_numbers(alloc: Global, out: &mut Vec<u8>, first: u8, others: &[u8]) -> Result<(), Memory>
    ensures { OnOk result (out.new.items ≡ out.old.items ++ interp_text (first, others.now)) }
{
    push_number(alloc, out, first as u64)?;
    for n in others {
        out.push(b',')?;
        push_number(alloc, out, *n as u64)?;
    }
    Ok(())
}

/// Adds the constant and the coefficients, parted by commas.
fn push_row(alloc: Global, out: &mut Vec<u8>, row: &(u8, Vec<u8>)) -> Result<(), Memory>
    ensures { OnOk result (out.new.items ≡ out.old.items ++ interp_text (row.now.0, row.now.1.items)) }
{
    push_numbers(alloc, out, row.0, &row.1)
}

/// Adds the weights behind a space, parted by commas; nothing where there are none.
fn push_weights(alloc: Global, out: &mut Vec<u8>, weights: &[u8]) -> Result<(), Memory>
    ensures { OnOk result (out.new.items ≡ out.old.items ++ each_behind 32 (weight_fields weights.now)) }
{
    if weights.is_empty() {
        return Ok(());
    }
    out.push(b' ')?;
    push_numbers(alloc, out, weights[0], &weights[1..])?;
    Ok(())
}

/// Adds each row behind a space.
fn push_rows(alloc: Global, out: &mut Vec<u8>, rows: &[(u8, Vec<u8>)]) -> Result<(), Memory>
    ensures { OnOk result (out.new.items ≡ out.old.items ++ each_behind 32 (map interp_text (interpretation_of rows.now))) }
{
    for row in rows {
        out.push(b' ')?;
        push_row(alloc, out, row)?;
    }
    Ok(())
}

/// Adds the name of each symbol behind a space.
fn push_names(out: &mut Vec<u8>, sig: &Signature, symbols: &[Symbol]) -> Result<(), Memory>
    requires { All (λ (f : Symbol). f.0 < length sig.now) symbols.now }
    ensures { OnOk result (out.new.items ≡ out.old.items ++ each_behind 32 (map (λ (f : Symbol). name_at (map (λ (e : SymbolEntry). e.name) sig.now) f.0) symbols.now)) }
{
    for f in symbols {
        out.push(b' ')?;
        out.extend_from_slice(sig.name(*f))?;
    }
    Ok(())
}

/// The certificate as one line without its line feed: `LPO` and the symbols' names, the greatest first; `LINEAR` and each
/// symbol's constant and coefficients; or `KBO`, the weights by symbol number, and the symbols' names, the greatest first.
pub fn cert_text(alloc: Global, c: &Certificate, sig: &Signature) -> Result<Vec<u8>, Memory>
    requires { IsTrue (is_certificate sig.now c.now) }
    ensures { IfOk result (λ text. text.items ≡ text_of sig.now c.now) }
{
    match c {
        Certificate::Lpo(prec) => {
            let mut out = Vec::from_slice(alloc, b"LPO")?;
            push_names(&mut out, sig, prec.symbols())?;
            Ok(out)
        }
        Certificate::Linear(i) => {
            let mut out = Vec::from_slice(alloc, b"LINEAR")?;
            push_rows(alloc, &mut out, i.rows())?;
            Ok(out)
        }
        Certificate::Kbo(order) => {
            let mut out = Vec::from_slice(alloc, b"KBO")?;
            push_weights(alloc, &mut out, order.weights())?;
            push_names(&mut out, sig, order.precedence().symbols())?;
            Ok(out)
        }
    }
}
