// One token at a time.
ghost use Rattle.std.specs.Prelude.{◌∷◌, ◌≡◌, ◌+◌, ◌<◌, ◌≤◌, List, length, drop, get_or, slice_index, IsUtf8};
ghost use Rattle.std.specs.Str.{IsCharBoundary};
ghost use Rattle.kb_text.specs.Tokens.{tokens_from, letter};
ghost use Rattle.kb_text.specs.Starts.{start_by, start_in, start_view, start_length, mark_length_of, first_and_rest, AreAscii, HasBytes, IsInText, IsNameTo, IsAhead};

/// A token that is no identifier.
#[derive(Clone, Copy, PartialEq, Eq)]
pub enum Mark {
    ArrowEquals,
    Arrow,
    Equals,
    Bar,
    LeftParen,
    RightParen,
    Comma,
    Quotation,
}

/// What stands at a place.
#[derive(Clone, Copy, PartialEq, Eq)]
enum Start {
    White,
    Mark(Mark),
    Letter,
}

#[derive(Clone, Copy, PartialEq, Eq)]
pub enum Form {
    Mark(Mark),
    Identifier,
    End,
}

/// A token, with its place and the place behind it.
#[derive(Clone, Copy, PartialEq, Eq)]
pub struct Found {
    pub form: Form,
    pub at: usize,
    pub end: usize,
}

fn start_at(bytes: &[u8], at: usize) -> Start
    requires { at < length bytes.now }
    ensures start { start_view result ≡ start_in bytes.now at }
    ensures fits { at + start_length result ≤ length bytes.now }
    ensures ascii { AreAscii result (get_or bytes.now at 0) (get_or bytes.now (at + 1) 0) (get_or bytes.now (at + 2) 0) }
{
    let b = bytes[at];
    let c = if bytes.len() - at > 1 {
        bytes[at + 1]
    } else {
        0
    };
    let d = if bytes.len() - at > 2 {
        bytes[at + 2]
    } else {
        0
    };
    start_of(b, c, d)
}

fn start_of(b: u8, c: u8, d: u8) -> Start
    ensures start { start_view result ≡ start_by b c d }
    ensures bytes { HasBytes result c d }
    ensures ascii { AreAscii result b c d }
{
    if b == 32 || b == 9 || b == 10 || b == 13 {
        return Start::White;
    }
    if b == b'-' && c == b'>' {
        return Start::Mark(if d == b'=' {
            Mark::ArrowEquals
        } else {
            Mark::Arrow
        });
    }
    if b == b'=' && c == b'=' {
        return Start::Mark(Mark::Equals);
    }
    match b {
        b'|' => Start::Mark(Mark::Bar),
        b'(' => Start::Mark(Mark::LeftParen),
        b')' => Start::Mark(Mark::RightParen),
        b',' => Start::Mark(Mark::Comma),
        b'"' => Start::Mark(Mark::Quotation),
        _ => Start::Letter,
    }
}

fn mark_length(mark: Mark) -> usize
    ensures { result ≡ mark_length_of mark }
{
    match mark {
        Mark::ArrowEquals => 3,
        Mark::Arrow | Mark::Equals => 2,
        _ => 1,
    }
}

// The end of the identifier whose first byte stands there.
fn name_end(bytes: &[u8], at: usize) -> usize
    requires room { at < length bytes.now }
    requires letter { start_in bytes.now at ≡ letter }
    ensures { IsNameTo bytes.now at result }
{
    let mut end = at + 1;
    while end < bytes.len() {
        match start_at(bytes, end) {
            Start::Letter => end += 1,
            _ => return end,
        }
    }
    end
}

/// The first token from a place on. The tokens from there on are it and those behind it.
pub fn next_token(bytes: &[u8], from: usize) -> Found
    requires { from ≤ length bytes.now }
    ensures found { tokens_from 0 from (drop from bytes.now) ≡ first_and_rest bytes.now result }
    ensures within { result.end ≤ length bytes.now }
    ensures order { result.at ≤ result.end }
    ensures ahead { IsAhead from result }
    ensures text { IsUtf8 bytes.now → IsCharBoundary bytes.now from → IsInText bytes.now result }
{
    let mut at = from;
    while at < bytes.len() {
        match start_at(bytes, at) {
            Start::White => at += 1,
            Start::Mark(mark) => {
                return Found {
                    form: Form::Mark(mark),
                    at,
                    end: at + mark_length(mark),
                };
            }
            Start::Letter => {
                return Found {
                    form: Form::Identifier,
                    at,
                    end: name_end(bytes, at),
                };
            }
        }
    }
    Found {
        form: Form::End,
        at,
        end: at,
    }
}
