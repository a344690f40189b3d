// The problem that a text spells.
ghost use Rattle.std.specs.Prelude.{◌≡◌, ◌+◌, ◌-◌, ◌<◌, ◌≤◌, IfErr, IfOk, IsUtf8, get_or, length, map};
ghost use Rattle.kb_text.specs.Problems.{Spells};
ghost use Rattle.kb_syntax.specs.Looks.{outside};
ghost use Rattle.kb_syntax.specs.Reader.{AreEmpty, place_look};
ghost use Rattle.kb_syntax.specs.Refused.{IsFault, IsRefusal};
ghost use Rattle.kb_text.specs.Refusals.{place_of};
ghost use Rattle.kb_text.specs.Tokens.{placed_tokens};

use crate::fault::SyntaxFault;
use crate::reader::Reader;
use kb_term::{MAX_PROBLEM_BYTES, Problem};
use kb_text::{Bound, Form, Kind, Refusal, next_token};
use std::alloc::Global;

// Where the token with this number, from 0, stands; 0 where there are fewer tokens.
fn token_place(bytes: &[u8], number: usize) -> usize
    ensures { result ≡ place_of bytes.now number }
{
    let mut left = number;
    let mut at = 0;
    loop {
        let found = next_token(bytes, at);
        if left == 0 {
            return found.at;
        }
        if found.form == Form::End {
            return 0;
        }
        left -= 1;
        at = found.end;
    }
}

fn refusal(bytes: &[u8], kind: Kind, number: usize) -> SyntaxFault
    ensures { IsRefusal bytes.now kind number result }
{
    SyntaxFault::Refused(Refusal {
        kind,
        at: token_place(bytes, number) as u64,
    })
}

// The problem of a text, token by token from the left, by a reader that has read nothing yet. A refusal's place may be some
// tokens before the one that shows it.
fn read_tokens<'a>(
    alloc: Global,
    text: &'a [u8],
    reader: &mut Reader<'a>,
) -> Result<Problem, SyntaxFault>
    requires short { length text.now ≤ MAX_PROBLEM_BYTES }
    requires utf8 { IsUtf8 text.now }
    requires notes { AreEmpty reader.old.notes }
    requires place { place_look reader.old.place ≡ outside }
    ensures spelled { IfOk result (λ p. Spells text.now p) }
    ensures refused { IfErr result (λ e. IsFault text.now e) }
{
    let mut number: usize = 0;
    let mut at = 0;
    let mut last_is_variable = false;
    loop {
        let found = next_token(text, at);
        let name = &text[found.at..found.end];
        let variable = reader.number(found.form, name);
        if let Some((kind, back)) = reader.shown(found.form, name, variable, last_is_variable) {
            return Err(refusal(text, kind, number.saturating_sub(back)));
        }
        if found.form == Form::End {
            let problem = reader.notes.problem(alloc)?;
            return Ok(problem);
        }
        let goes_on = reader.next(alloc, found.form, name, variable, last_is_variable)?;
        if !goes_on {
            return Err(refusal(text, Kind::BadToken, number));
        }
        number += 1;
        at = found.end;
        last_is_variable = variable.is_some();
    }
}

// The problem of a text of so many bytes that is UTF-8.
fn parse_text(alloc: Global, text: &[u8]) -> Result<Problem, SyntaxFault>
    requires short { length text.now ≤ MAX_PROBLEM_BYTES }
    requires utf8 { IsUtf8 text.now }
    ensures spelled { IfOk result (λ p. Spells text.now p) }
    ensures refused { IfErr result (λ e. IsFault text.now e) }
{
    let mut reader = Reader::new(alloc);
    read_tokens(alloc, text, &mut reader)
}

/// The problem that the bytes spell: sections of variables and of rules, with any others passed over.
///
/// # Errors
///
/// The first refusal with its place, a number of bytes: of more than 1,048,576 bytes, of bytes that aren't UTF-8, and else of the first token
/// that the grammar doesn't have there, that breaks a condition on variables and arities, or that passes a limit. Or want of memory.
pub fn parse_problem(alloc: Global, bytes: &[u8]) -> Result<Problem, SyntaxFault>
    ensures spelled { IfOk result (λ p. Spells bytes.now p) }
    ensures refused { IfErr result (λ e. IsFault bytes.now e) }
{
    if bytes.len() > MAX_PROBLEM_BYTES {
        return Err(SyntaxFault::Refused(Refusal {
            kind: Kind::Limit(Bound::Input),
            at: MAX_PROBLEM_BYTES as u64,
        }));
    }
    match std::str::from_utf8(bytes) {
        Ok(_) => parse_text(alloc, bytes),
        Err(e) => Err(SyntaxFault::Refused(Refusal {
            kind: Kind::NotUtf8,
            at: e.valid_up_to() as u64,
        })),
    }
}
