// Reading numbers and lines.
ghost use Rattle.std.specs.Prelude.{◌≡◌, ◌<◌, ℕ, MatchOption, decimal};
ghost use Rattle.kb_text.specs.Fields.{IsFirstLine, IsWithout};

/// The most digits of a number that is read.
const DIGITS: usize = 5;

/// The number that is written with these decimal digits, at most five, without leading zeros.
pub fn read_number(digits: &[u8]) -> Option<u32>
    ensures { MatchOption result ((n : ℕ) → n < 100000 → ¬ (decimal n ≡ digits.now)) (λ n. (n < 100000) × (decimal n ≡ digits.now)) }
{
    if digits.is_empty() || digits.len() > DIGITS {
        return None;
    }
    if digits[0] == b'0' && digits.len() > 1 {
        return None;
    }
    let mut number = 0u32;
    for i in 0..digits.len() {
        let digit = digits[i];
        if digit < b'0' || digit > b'9' {
            return None;
        }
        number = number * 10 + (digit - b'0') as u32;
    }
    Some(number)
}

/// How many bytes stand before the first line feed; none where there is none.
pub fn line_length(text: &[u8]) -> Option<usize>
    ensures { MatchOption result (IsWithout 10 text.now) (IsFirstLine text.now) }
{
    for i in 0..text.len() {
        if text[i] == b'\n' {
            return Some(i);
        }
    }
    None
}
