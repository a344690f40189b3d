// Lines of fields.
ghost use Rattle.std.specs.Prelude.{◌≡◌, ◌<◌, ◌==◌, ◌++◌, ◌∷◌, ◌↔◌, [], ℕ, List, OnOk, OnErr, IfOk, IsTrue, decimal, get_or, map, length, take};
ghost use Rattle.std.specs.List.{join_with_byte, slice_split};
ghost use Rattle.kb_text.specs.Fields.{parts_with};
ghost use Rattle.kb_text.specs.Lines.{line, parted};

use kb_term::{Memory, push_number};
use std::alloc::Global;
use std::marker::Model;
use std::mem::replace;

/// Whether the bytes are the word. It takes no memory.
pub fn is_word(bytes: &[u8], word: &[u8]) -> bool
    ensures { IsTrue result ↔ (bytes.now ≡ word.now) }
{
    bytes == word
}

// Adds the fields, parted by the separator; a part may stay after an error.
fn push_joined(out: &mut Vec<u8>, fields: &[Vec<u8>], separator: u8) -> Result<(), Memory>
    ensures ok { OnOk result (out.new.items ≡ out.old.items ++ join_with_byte separator (map (λ f. f.items) fields.now)) }
    ensures front { take (length out.old.items) out.new.items ≡ out.old.items }
{
    for (i, field) in fields.iter().enumerate() {
        push_field(out, separator, i, field)?;
    }
    Ok(())
}

// Adds the field with this number, behind a separator where it isn't the first; the separator may stay after an error.
fn push_field(out: &mut Vec<u8>, separator: u8, i: usize, field: &[u8]) -> Result<(), Memory>
    ensures ok { OnOk result (out.new.items ≡ out.old.items ++ parted separator i field.now) }
    ensures front { take (length out.old.items) out.new.items ≡ out.old.items }
{
    if i > 0 {
        out.push(separator)?;
    }
    out.extend_from_slice(field)?;
    Ok(())
}

// Adds the fields as a line; a part may stay after an error.
fn push_line(out: &mut Vec<u8>, fields: &[Vec<u8>]) -> Result<(), Memory>
    ensures ok { OnOk result (out.new.items ≡ out.old.items ++ line (map (λ f. f.items) fields.now)) }
    ensures front { take (length out.old.items) out.new.items ≡ out.old.items }
{
    push_joined(out, fields, b' ')?;
    out.push(b'\n')?;
    Ok(())
}

// One byte more of a text that is cut: it ends the part, or goes on with it.
fn push_byte(
    alloc: Global,
    parts: &mut Vec<Vec<u8>>,
    part: &mut Vec<u8>,
    separator: u8,
    b: u8,
) -> Result<(), Memory>
    ensures { OnOk result ((rest : List ℕ) → parts_with separator parts.new.items part.new.items rest ≡ parts_with separator parts.old.items part.old.items (b ∷ rest)) }
{
    if b == separator {
        let whole = replace(part, Vec::new(alloc));
        parts.push(whole)?;
        return Ok(());
    }
    part.push(b)?;
    Ok(())
}

fn parts_of(alloc: Global, text: &[u8], separator: u8) -> Result<Vec<Vec<u8>>, Memory>
    ensures { IfOk result (λ parts. map (λ f. f.items) parts.items ≡ slice_split (λ b. b == separator) text.now) }
{
    let mut parts = Vec::new(alloc);
    let mut part = Vec::new(alloc);
    for i in 0..text.len() {
        push_byte(alloc, &mut parts, &mut part, separator, text[i])?;
    }
    parts.push(part)?;
    Ok(parts)
}

fn field_at(fields: &[Vec<u8>], i: usize) -> &[u8]
    requires { i < length fields.now }
    ensures { result.now ≡ get_or (map (λ f. f.items) fields.now) i [] }
{
    &fields[i]
}

/// Fields, which are written parted by one byte.
#[derive(Drop)]
pub struct Fields {
    items: Vec<Vec<u8>>,
}

impl Model for Fields {
    ghost use Rattle.std.specs.Prelude.{List, ℕ, map};

    ghost Value = { List (List ℕ) };

    ghost view = { λ a. map (λ f. f.items) a.items.items };
}

impl Fields {
    /// No fields.
    pub fn new(alloc: Global) -> Fields
        ensures { result ≡ [] }
    {
        Fields {
            items: Vec::new(alloc),
        }
    }

    /// The parts of a text between its separators: one where it has none. The time is linear in the text.
    pub fn cut(alloc: Global, text: &[u8], separator: u8) -> Result<Fields, Memory>
        ensures { IfOk result (λ fields. fields ≡ slice_split (λ b. b == separator) text.now) }
    {
        let items = parts_of(alloc, text, separator)?;
        Ok(Fields { items })
    }

    /// How many fields there are.
    pub fn len(&self) -> usize
        ensures { result ≡ length self.now }
    {
        self.items.len()
    }

    /// The field with the number i, from 0.
    pub fn field(&self, i: usize) -> &[u8]
        requires { i < length self.now }
        ensures { result.now ≡ get_or self.now i [] }
    {
        field_at(&self.items, i)
    }

    /// Adds a field at the end. After want of memory the fields are as before.
    pub fn push(&mut self, field: Vec<u8>) -> Result<(), Memory>
        ensures ok { OnOk result (self.new ≡ self.old ++ field.items ∷ []) }
        ensures err { OnErr result (self.new ≡ self.old) }
    {
        self.items.push(field)?;
        Ok(())
    }

    /// Adds a copy of the word at the end. After want of memory the fields are as before.
    pub fn word(&mut self, alloc: Global, word: &[u8]) -> Result<(), Memory>
        ensures ok { OnOk result (self.new ≡ self.old ++ word.now ∷ []) }
        ensures err { OnErr result (self.new ≡ self.old) }
    {
        self.push(Vec::from_slice(alloc, word)?)
    }

    /// Adds a number in decimal digits at the end. After want of memory the fields are as before.
    pub fn number(&mut self, alloc: Global, n: u64) -> Result<(), Memory>
        ensures ok { OnOk result (self.new ≡ self.old ++ decimal n ∷ []) }
        ensures err { OnErr result (self.new ≡ self.old) }
    {
        let mut digits = Vec::new(alloc);
        push_number(alloc, &mut digits, n)?;
        self.push(digits)
    }

    /// Adds the fields to the text, parted by the separator. After want of memory the text is as before.
    pub fn join_to(&self, out: &mut Vec<u8>, separator: u8) -> Result<(), Memory>
        ensures ok { OnOk result (out.new.items ≡ out.old.items ++ join_with_byte separator self.now) }
        ensures err { OnErr result (out.new.items ≡ out.old.items) }
    {
        let unjoined = out.len();
        let joined = push_joined(out, &self.items, separator);
        if joined.is_err() {
            out.truncate(unjoined);
        }
        joined
    }

    /// Adds the fields to the text as a line, parted by spaces. After want of memory the text is as before.
    pub fn line_to(&self, out: &mut Vec<u8>) -> Result<(), Memory>
        ensures ok { OnOk result (out.new.items ≡ out.old.items ++ line self.now) }
        ensures err { OnErr result (out.new.items ≡ out.old.items) }
    {
        let before = out.len();
        let added = push_line(out, &self.items);
        if added.is_err() {
            out.truncate(before);
        }
        added
    }
}
