// Reading the line of the certificate.
ghost use Rattle.std.specs.Prelude.{◌≡◌, ◌≤◌, IfOk, IfErr, MatchOption, drop, length};
ghost use Rattle.kb_term.specs.Signature.{IsSignature};
ghost use Rattle.kb_cert.specs.declared.certificate.Certificate.{Certificate};
ghost use Rattle.kb_report.specs.Sections.{BeginsWith, IsSectionFault};
ghost use Rattle.kb_report.specs.SystemSections.{Order, IsOrderLine};

use crate::header::first_line;
use kb_cert::{Certificate, read_cert};
use kb_term::{Memory, Signature};
use kb_text::TextFault;
use std::alloc::Global;

/// The certificate behind the first word of a line.
fn order_of(alloc: Global, sig: &Signature, line: &[u8]) -> Result<Option<Certificate>, Memory>
    ensures { IfOk result (λ read. MatchOption read ((c : Certificate) → ¬ IsOrderLine sig.now line.now c) (IsOrderLine sig.now line.now)) }
{
    let Some(text) = line.strip_prefix(b"ORDER ".as_slice()) else {
        return Ok(None);
    };
    read_cert(alloc, sig, text)
}

/// The certificate on the line that the text begins with, and how many bytes it takes.
pub(crate) fn read_order(
    alloc: Global,
    sig: &Signature,
    text: &[u8],
    first: u64,
) -> Result<(Certificate, usize), TextFault>
    requires names { IsSignature sig.now }
    ensures read { IfOk result (λ p. BeginsWith (Order sig.now) text.now p.0 1 (drop p.1 text.now)) }
    ensures size { IfOk result (λ p. p.1 ≤ length text.now) }
    ensures fault { IfErr result (IsSectionFault (Order sig.now) text.now first) }
{
    let Some((line, size)) = first_line(text) else {
        return Err(TextFault::BadText(first));
    };
    match order_of(alloc, sig, line)? {
        Some(cert) => Ok((cert, size)),
        None => Err(TextFault::BadText(first)),
    }
}
