// Reading the fields of a line.
ghost use Rattle.std.specs.Prelude.{◌≡◌, ◌<◌, ◌^◌, ℕ, MatchOption, decimal, length};
ghost use Rattle.kb_journal.specs.LineReading.{at_most as at_most_read, commit_read, is_word_at as is_word_in, line_read, number_at as number_in, number_read, plain_read, process_at as process_in, process_read, reason_at as reason_in, rule_at as rule_in, rule_read, take_read, target_at as target_in};

use crate::entry_line::EntryLine;
use kb_label::{MAX_BITS, Process, Reason};
use kb_term::RuleRef;
use kb_text::Fields;

/// The most digits of a number that is read: those of 2^64 - 1.
const DIGITS: usize = 20;

/// The number below 2^64 that is written with these decimal digits, without leading zeros.
pub(crate) fn whole_of(digits: &[u8]) -> Option<u64>
    ensures { MatchOption result ((n : ℕ) → n < 2 ^ 64 → ¬ (decimal n ≡ digits.now)) (λ n. (n < 2 ^ 64) × (decimal n ≡ digits.now)) }
{
    if digits.is_empty() || digits.len() > DIGITS {
        return None;
    }
    if digits[0] == b'0' && digits.len() > 1 {
        return None;
    }
    let mut number = 0u128;
    for i in 0..digits.len() {
        let digit = digits[i];
        if digit < b'0' || digit > b'9' {
            return None;
        }
        number = number * 10 + (digit - b'0') as u128;
    }
    if number > u64::MAX as u128 {
        return None;
    }
    Some(number as u64)
}

// The number, by what is read of it.
fn read_whole(digits: &[u8]) -> Option<u64>
    ensures { result ≡ number_read digits.now }
{
    whole_of(digits)
}

// Whether there is a field with this number that is the word.
fn is_word_at(fields: &Fields, k: usize, word: &[u8]) -> bool
    requires { 0 < length word.now }
    ensures { result ≡ is_word_in fields.now k word.now }
{
    k < fields.len() && fields.field(k) == word
}

// The number in the field with this number, 0 where there is none.
fn number_at(fields: &Fields, k: usize) -> u64
    ensures { result ≡ number_in fields.now k }
{
    if k >= fields.len() {
        return 0;
    }
    read_whole(fields.field(k)).unwrap_or(0)
}

// The number, where it is a byte's, else 0.
fn as_byte(n: u64) -> u8
    ensures { result ≡ at_most_read 255 n }
{
    if n <= u8::MAX as u64 { n as u8 } else { 0 }
}

// The number, where it is below 2^16, else 0.
fn as_short(n: u64) -> u16
    ensures { result ≡ at_most_read 65535 n }
{
    if n <= u16::MAX as u64 { n as u16 } else { 0 }
}

// The process that the text names.
fn process_of(text: &[u8]) -> Process
    ensures { result ≡ process_read text.now }
{
    let mut process = Process::root();
    if text == b"e".as_slice() || text.len() > MAX_BITS {
        return process;
    }
    for b in text {
        process = process.child(*b == b'1');
    }
    process
}

fn process_at(fields: &Fields, k: usize) -> Process
    ensures { result ≡ process_in fields.now k }
{
    if k >= fields.len() {
        return Process::root();
    }
    process_of(fields.field(k))
}

// The rule that the text names: a node before a dot and a digit.
fn rule_of(text: &[u8]) -> RuleRef
    ensures { result ≡ rule_read text.now }
{
    let (node, _) = text.split_at(text.len().saturating_sub(2));
    RuleRef {
        node: as_short(read_whole(node).unwrap_or(0)),
        dir: text.last().copied().unwrap_or(b'0').saturating_sub(b'0'),
    }
}

fn rule_at(fields: &Fields, k: usize) -> RuleRef
    ensures { result ≡ rule_in fields.now k }
{
    if k >= fields.len() {
        return rule_of(b"");
    }
    rule_of(fields.field(k))
}

// The node of a new pair, none for the word.
fn target_at(fields: &Fields, k: usize) -> Option<u16>
    ensures { result ≡ target_in fields.now k }
{
    if is_word_at(fields, k, b"trivial") {
        return None;
    }
    Some(as_short(number_at(fields, k)))
}

// The reason that the field names.
fn reason_at(fields: &Fields, k: usize) -> Reason
    ensures { result ≡ reason_in fields.now k }
{
    if is_word_at(fields, k, b"nodes") {
        Reason::Nodes
    } else if is_word_at(fields, k, b"processes") {
        Reason::Processes
    } else if is_word_at(fields, k, b"size") {
        Reason::Size
    } else if is_word_at(fields, k, b"depth") {
        Reason::Depth
    } else if is_word_at(fields, k, b"variables") {
        Reason::Variables
    } else {
        Reason::Steps
    }
}

// The take that the fields are, if they are one.
fn take_of(fields: &Fields) -> EntryLine
    ensures { result ≡ take_read fields.now }
{
    let worker = as_byte(number_at(fields, 1));
    let ticket = number_at(fields, 2);
    let process = process_at(fields, 4);
    if is_word_at(fields, 3, b"reduce") {
        let node = as_short(number_at(fields, 5));
        EntryLine::TakeReduce {
            worker,
            ticket,
            process,
            node,
        }
    } else if is_word_at(fields, 3, b"orient") {
        let node = as_short(number_at(fields, 5));
        EntryLine::TakeOrient {
            worker,
            ticket,
            process,
            node,
        }
    } else if is_word_at(fields, 3, b"overlap") {
        let a = rule_at(fields, 5);
        let b = rule_at(fields, 6);
        EntryLine::TakeOverlap {
            worker,
            ticket,
            process,
            a,
            b,
        }
    } else {
        EntryLine::TakeClose {
            worker,
            ticket,
            process,
        }
    }
}

// The commit without a number that the fields are, if they are one.
fn plain_of(fields: &Fields) -> EntryLine
    ensures { result ≡ plain_read fields.now }
{
    let ticket = number_at(fields, 1);
    if is_word_at(fields, 2, b"fork") {
        EntryLine::Fork { ticket }
    } else if is_word_at(fields, 2, b"refused") {
        EntryLine::Refused { ticket }
    } else if is_word_at(fields, 2, b"closed") {
        EntryLine::Closed { ticket }
    } else {
        let reason = reason_at(fields, 3);
        EntryLine::Over { ticket, reason }
    }
}

// The commit that the fields are, if they are one.
fn commit_of(fields: &Fields) -> EntryLine
    ensures { result ≡ commit_read fields.now }
{
    let ticket = number_at(fields, 1);
    let count = number_at(fields, 3);
    if is_word_at(fields, 2, b"facts") {
        EntryLine::Facts { ticket, count }
    } else if is_word_at(fields, 2, b"rewrite") {
        let node = target_at(fields, 3);
        EntryLine::Rewrite { ticket, node }
    } else if is_word_at(fields, 2, b"oriented") {
        let direction = as_byte(count);
        EntryLine::Oriented { ticket, direction }
    } else if is_word_at(fields, 2, b"deduced") {
        EntryLine::Deduced { ticket, count }
    } else if is_word_at(fields, 2, b"unjoined") {
        EntryLine::Unjoined { ticket, count }
    } else {
        plain_of(fields)
    }
}

/// The line that the fields are, if they are one.
pub(crate) fn line_of_fields(fields: &Fields) -> EntryLine
    ensures { result ≡ line_read fields.now }
{
    let ticket = number_at(fields, 1);
    if is_word_at(fields, 0, b"take") {
        take_of(fields)
    } else if is_word_at(fields, 0, b"commit") {
        commit_of(fields)
    } else if is_word_at(fields, 0, b"drop") {
        let process = process_at(fields, 2);
        EntryLine::Drop { ticket, process }
    } else if is_word_at(fields, 0, b"abandon") {
        EntryLine::Abandon { ticket }
    } else {
        EntryLine::Halt
    }
}
