// The versions of the answer text.
ghost use Rattle.std.specs.Prelude.{◌≡◌, ◌≤◌, IfOk, IfErr, MatchOption, drop, length};
ghost use Rattle.kb_report.specs.Sections.{BeginsWith, IsSectionFault};
ghost use Rattle.kb_report.specs.SystemSections.{Head, ConstraintCount, IsHeadLine};
ghost use Rattle.kb_report.specs.declared.version.Version.{Version};

use crate::header::{LINES, first_line, read_count};
use kb_term::MAX_NODES;
use kb_text::{TextFault, is_word};

/// A version of the answer text.
#[derive(Clone, Copy, Debug, PartialEq, Eq)]
pub enum Version {
    /// Has no constraints. It is read, and not written.
    First,
    /// Lists the constraints behind the rules.
    Second,
}

/// The version that the line names.
fn version_of(line: &[u8]) -> Option<Version>
    ensures { MatchOption result ((v : Version) → ¬ IsHeadLine line.now v) (IsHeadLine line.now) }
{
    if is_word(line, b"MKBTT 1") {
        return Some(Version::First);
    }
    if is_word(line, b"MKBTT 2") {
        return Some(Version::Second);
    }
    None
}

/// The version that the first line of the text names, and how many bytes the line takes.
pub(crate) fn read_version(text: &[u8]) -> Result<(Version, usize), TextFault>
    ensures read { IfOk result (λ p. BeginsWith Head text.now p.0 1 (drop p.1 text.now)) }
    ensures size { IfOk result (λ p. p.1 ≤ length text.now) }
    ensures fault { IfErr result (IsSectionFault Head text.now 1) }
{
    let Some((line, size)) = first_line(text) else {
        return Err(TextFault::BadText(1));
    };
    let Some(version) = version_of(line) else {
        return Err(TextFault::BadText(1));
    };
    Ok((version, size))
}

/// How many constraints there are, on how many lines the text says so, and how many bytes these take: in version 1 none, on
/// no line.
pub(crate) fn read_constraint_count(
    version: Version,
    text: &[u8],
    first: u64,
) -> Result<(usize, usize, usize), TextFault>
    ensures read { IfOk result (λ p. BeginsWith (ConstraintCount version) text.now p.0 p.1 (drop p.2 text.now)) }
    ensures few { IfOk result (λ p. (p.0 ≤ MAX_NODES) × (p.1 ≤ 1)) }
    ensures size { IfOk result (λ p. p.2 ≤ length text.now) }
    ensures fault { IfErr result (IsSectionFault (ConstraintCount version) text.now first) }
{
    match version {
        Version::First => Ok((0, 0, 0)),
        Version::Second => {
            let (count, size) = read_count(text, b"CONSTRAINTS ", LINES, first)?;
            Ok((count, 1, size))
        }
    }
}
