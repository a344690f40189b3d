// The line of a text that holds a place.
ghost use Rattle.std.specs.Prelude.{◌≡◌, ◌++◌, ◌∷◌, [], IfOk, OnOk, codes, replicate};
ghost use Rattle.std.specs.List.{after_last, before_first, count_by};
ghost use Rattle.mkbtt_shown.specs.Excerpts.{back_shown, caret_line, excerpt_of, front_shown, is_feed, line_start as start_of_line, numbered_line, shown, shown_byte as shown_for};

use kb_term::{Memory, push_number};
use std::alloc::Global;

/// The most bytes of a line that are shown before the place.
const FRONT: usize = 60;

/// The most bytes of a line that are shown from the place on.
const BACK: usize = 40;

// What stands behind the last line feed.
fn last_line(text: &[u8]) -> &[u8]
    ensures { result.now ≡ after_last is_feed text.now }
{
    let mut start = text.len();
    while start > 0 && text[start - 1] != b'\n' {
        start -= 1;
    }
    &text[start..]
}

// What stands before the first line feed.
fn first_line(text: &[u8]) -> &[u8]
    ensures { result.now ≡ before_first is_feed text.now }
{
    let mut end = 0;
    while end < text.len() && text[end] != b'\n' {
        end += 1;
    }
    &text[..end]
}

// How many line feeds there are.
fn feeds(text: &[u8]) -> usize
    ensures { result ≡ count_by is_feed text.now }
{
    text.iter().filter(|b| **b == b'\n').count()
}

/// Where the line with this number, from 1, begins: the end of the text where it has fewer lines.
pub(crate) fn line_start(text: &[u8], number: u64) -> usize
    ensures { result ≡ start_of_line text.now number }
{
    let mut before = number.saturating_sub(1);
    for i in 0..text.len() {
        if before == 0 {
            return i;
        }
        if text[i] == b'\n' {
            before -= 1;
        }
    }
    text.len()
}

// What is shown for a byte: a letter, figure or sign of ASCII for itself, a question mark for any other character, by its first
// byte, and a space for tabs and the like.
fn shown_byte(b: u8) -> Option<u8>
    ensures { result ≡ shown_for b }
{
    match b {
        b' '..=b'~' => Some(b),
        0x80..=0xBF => None,
        0xC0..=0xFF => Some(b'?'),
        _ => Some(b' '),
    }
}

fn push_shown(out: &mut Vec<u8>, part: &[u8]) -> Result<(), Memory>
    ensures { OnOk result (out.new.items ≡ out.old.items ++ shown part.now) }
{
    for b in part {
        if let Some(shown) = shown_byte(*b) {
            out.push(shown)?;
        }
    }
    Ok(())
}

// Adds what is shown of a line before the place.
fn push_front(out: &mut Vec<u8>, front: &[u8]) -> Result<(), Memory>
    ensures { OnOk result (out.new.items ≡ out.old.items ++ front_shown front.now) }
{
    if front.len() <= FRONT {
        return push_shown(out, front);
    }
    out.extend_from_slice(b"...")?;
    push_shown(out, &front[front.len() - FRONT..])
}

// Adds what is shown of a line from the place on.
fn push_back(out: &mut Vec<u8>, back: &[u8]) -> Result<(), Memory>
    ensures { OnOk result (out.new.items ≡ out.old.items ++ back_shown back.now) }
{
    if back.len() <= BACK {
        return push_shown(out, back);
    }
    push_shown(out, back.split_at(BACK).0)?;
    out.extend_from_slice(b"...")?;
    Ok(())
}

fn push_spaces(out: &mut Vec<u8>, count: usize) -> Result<(), Memory>
    ensures { OnOk result (out.new.items ≡ out.old.items ++ replicate count 32) }
{
    for _ in 0..count {
        out.push(b' ')?;
    }
    Ok(())
}

// Adds the line with its number: what is shown before the place, and what stands from the place on.
fn push_line(out: &mut Vec<u8>, number: &[u8], front: &[u8], behind: &[u8]) -> Result<(), Memory>
    ensures { OnOk result (out.new.items ≡ out.old.items ++ (number.now ++ codes " | " ++ front.now ++ back_shown (before_first is_feed behind.now) ++ 10 ∷ [])) }
{
    out.extend_from_slice(number)?;
    out.extend_from_slice(b" | ")?;
    out.extend_from_slice(front)?;
    push_back(out, first_line(behind))?;
    out.push(b'\n')?;
    Ok(())
}

// Adds a caret behind so many spaces, beside a margin of this width.
fn push_caret(out: &mut Vec<u8>, width: usize, column: usize) -> Result<(), Memory>
    ensures { OnOk result (out.new.items ≡ out.old.items ++ (replicate width 32 ++ codes " | " ++ replicate column 32 ++ codes "^\n")) }
{
    push_spaces(out, width)?;
    out.extend_from_slice(b" | ")?;
    push_spaces(out, column)?;
    out.extend_from_slice(b"^\n")?;
    Ok(())
}

// The line that holds the place between the two parts of a text, with a caret under the place.
fn excerpt_between(alloc: Global, before: &[u8], behind: &[u8]) -> Result<Vec<u8>, Memory>
    ensures { IfOk result (λ lines. lines.items ≡ numbered_line before.now behind.now ++ caret_line before.now) }
{
    let mut number = Vec::new(alloc);
    push_number(alloc, &mut number, feeds(before) as u64 + 1)?;
    let mut front = Vec::new(alloc);
    push_front(&mut front, last_line(before))?;
    let mut lines = Vec::new(alloc);
    push_line(&mut lines, &number, &front, behind)?;
    push_caret(&mut lines, number.len(), front.len())?;
    Ok(lines)
}

/// The line of the text that holds the place, with its number, and a caret under the place; a place behind the text is its end.
///
/// At most 60 bytes before the place are shown and 40 from it on, with three dots for what is left out. Each character takes one
/// column: what isn't of ASCII is shown as a question mark, tabs and the like as a space.
///
/// # Errors
///
/// Want of memory.
pub fn excerpt(alloc: Global, text: &[u8], at: usize) -> Result<Vec<u8>, Memory>
    ensures { IfOk result (λ lines. lines.items ≡ excerpt_of text.now at) }
{
    if at >= text.len() {
        return excerpt_between(alloc, text, b"");
    }
    let (before, behind) = text.split_at(at);
    excerpt_between(alloc, before, behind)
}
