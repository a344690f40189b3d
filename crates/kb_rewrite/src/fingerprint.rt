// The tops of terms.
ghost use Rattle.std.specs.Prelude.{◌≡◌, ◌↔◌, IsTrue, map};
ghost use Rattle.kb_term.specs.View.{tree_of};
ghost use Rattle.kb_rewrite.specs.Fingerprints.{argument_of, mark_of, marks_of, known_of, packed as packed_bytes, tree_or, IsFingerprint, MayFit};

use kb_term::Term;

/// How many places the top of a term has: its root, its first two arguments, and the first two arguments of each of these.
const PLACES: usize = 7;

/// The top of a left side.
///
/// The mark of a symbol is its number and 1, as a byte. A variable has the mark 0, as an argument has that isn't there.
#[derive(Clone, Copy)]
pub(crate) struct Fingerprint {
    /// The marks, one a byte.
    marks: u64,
    /// 255 at each place whose mark isn't 0.
    known: u64,
}

impl Fingerprint {
    /// The top of the left side.
    pub(crate) fn of(left: &Term) -> Fingerprint
        ensures { IsFingerprint (tree_of left.now) result }
    {
        let marks = marks(left);
        Fingerprint {
            marks: packed(marks),
            known: packed(known(marks)),
        }
    }
}

/// The marks of the top of a term, one a byte.
pub(crate) fn top_of(t: &Term) -> u64
    ensures { result ≡ packed_bytes (marks_of (tree_of t.now)) }
{
    packed(marks(t))
}

/// Whether each known mark of the fingerprint with the number is that of the top, or there is no such fingerprint.
pub(crate) fn may_fit(prints: &[Fingerprint], i: usize, top: u64) -> bool
    ensures { IsTrue result ↔ MayFit prints.now i top }
{
    i >= prints.len() || top & prints[i].known == prints[i].marks
}

/// The marks of the top of a term.
fn marks(t: &Term) -> [u8; PLACES]
    ensures { result ≡ marks_of (tree_of t.now) }
{
    let root = Some(t);
    let first = argument(root, 0);
    let second = argument(root, 1);
    [
        mark(root),
        mark(first),
        mark(argument(first, 0)),
        mark(argument(first, 1)),
        mark(second),
        mark(argument(second, 0)),
        mark(argument(second, 1)),
    ]
}

/// The argument of the term with the number, counted from 0; none where there is none.
fn argument(t: Option<&Term>, k: usize) -> Option<&Term>
    ensures { tree_or result ≡ argument_of (tree_or t.entry) k }
{
    match t? {
        Term::Var(_) => None,
        Term::App(_, arguments) => {
            let items = arguments.items();
            if k < items.len() {
                Some(&items[k])
            } else {
                None
            }
        }
    }
}

/// The mark of the term; 0 where there is none.
fn mark(t: Option<&Term>) -> u8
    ensures { result ≡ mark_of (tree_or t.entry) }
{
    match t {
        Some(Term::App(f, _)) => f.0.wrapping_add(1),
        _ => 0,
    }
}

/// 255 at each place whose mark isn't 0.
fn known(marks: [u8; PLACES]) -> [u8; PLACES]
    ensures { result ≡ map known_of marks }
{
    let [a, b, c, d, e, f, g] = marks;
    [
        if_known(a),
        if_known(b),
        if_known(c),
        if_known(d),
        if_known(e),
        if_known(f),
        if_known(g),
    ]
}

/// 255 where the mark isn't 0.
fn if_known(mark: u8) -> u8
    ensures { result ≡ known_of mark }
{
    if mark == 0 { 0 } else { 255 }
}

/// The bytes as one number, the first in its lowest bits.
fn packed(bytes: [u8; PLACES]) -> u64
    ensures { result ≡ packed_bytes bytes }
{
    let low = (bytes[2] as u64 * 256 + bytes[1] as u64) * 256 + bytes[0] as u64;
    let high = (bytes[5] as u64 * 256 + bytes[4] as u64) * 256 + bytes[3] as u64;
    ((bytes[6] as u64 * 16777216) + high) * 16777216 + low
}
