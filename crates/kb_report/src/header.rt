// Lines that are a word, or a number behind one.
ghost use Rattle.std.specs.Prelude.{◌≡◌, ◌≤◌, ◌<◌, ◌↔◌, ℕ, IfOk, IfErr, IsTrue, MatchOption, drop, length, ⊤};
ghost use Rattle.kb_text.specs.Fields.{IsWithout};
ghost use Rattle.kb_report.specs.Sections.{Word, Count, counted_line, BeginsWith, IsSectionFault, IsFirstLine, IsLineOf};

use kb_term::MAX_NODES;
use kb_text::{TextFault, is_word, line_length, read_number};

/// The most rules, the most constraints, and the most steps of a trace.
pub(crate) const LINES: u32 = MAX_NODES as u32;

/// The line that the text begins with, without its line feed, and how many bytes it takes with it.
pub fn first_line(text: &[u8]) -> Option<(&[u8], usize)>
    ensures line { MatchOption result (IsWithout 10 text.now) (λ p. IsFirstLine text.now p.0.now (drop p.1 text.now)) }
    ensures size { MatchOption result ⊤ (λ p. p.1 ≤ length text.now) }
{
    match line_length(text) {
        None => None,
        Some(length) => {
            let (line, _) = text.split_at(length);
            Some((line, length + 1))
        }
    }
}

/// How many bytes the line takes that the text begins with, where it is the word.
///
/// # Errors
///
/// `BadText(first)` where the text begins with another line or with none: `first` is the number of that line in a whole text.
pub fn read_word(text: &[u8], word: &[u8], first: u64) -> Result<usize, TextFault>
    requires { IsWithout 10 word.now }
    ensures read { IfOk result (λ size. BeginsWith (Word word.now) text.now Prim.tt 1 (drop size text.now)) }
    ensures size { IfOk result (λ size. size ≤ length text.now) }
    ensures fault { IfErr result (IsSectionFault (Word word.now) text.now first) }
{
    let Some((line, size)) = first_line(text) else {
        return Err(TextFault::BadText(first));
    };
    if !is_word(line, word) {
        return Err(TextFault::BadText(first));
    }
    Ok(size)
}

/// The number of at most this behind the word on a line.
fn count_of(line: &[u8], word: &[u8], highest: u32) -> Option<u32>
    requires { highest ≤ 5000 }
    ensures { MatchOption result ((n : ℕ) → ¬ IsLineOf (λ n. n ≤ highest) (counted_line word.now) line.now n) (IsLineOf (λ n. n ≤ highest) (counted_line word.now) line.now) }
{
    let Some(digits) = line.strip_prefix(word) else {
        return None;
    };
    let Some(number) = read_number(digits) else {
        return None;
    };
    if number > highest {
        return None;
    }
    Some(number)
}

/// The number of at most this behind the word on the line that the text begins with, and how many bytes the line takes.
///
/// # Errors
///
/// `BadText(first)` where the text begins with another line or with none: `first` is the number of that line in a whole text.
pub fn read_count(
    text: &[u8],
    word: &[u8],
    highest: u32,
    first: u64,
) -> Result<(usize, usize), TextFault>
    requires few { highest ≤ 5000 }
    requires word { IsWithout 10 word.now }
    ensures read { IfOk result (λ p. BeginsWith (Count word.now highest) text.now p.0 1 (drop p.1 text.now)) }
    ensures size { IfOk result (λ p. p.1 ≤ length text.now) }
    ensures fault { IfErr result (IsSectionFault (Count word.now highest) text.now first) }
{
    let Some((line, size)) = first_line(text) else {
        return Err(TextFault::BadText(first));
    };
    let Some(count) = count_of(line, word, highest) else {
        return Err(TextFault::BadText(first));
    };
    Ok((count as usize, size))
}
