// What the definitions imply, as contracts of functions that do nothing.
ghost use Rattle.std.specs.Prelude.{◌≡◌, ◌≤◌, ℕ, List, length};
ghost use Rattle.kb_term.specs.Signature.{IsSignature, Problem, Signature};
ghost use Rattle.kb_term.specs.Tree.{Tree};
ghost use Rattle.kb_text.specs.Problems.{Spells};
ghost use Rattle.kb_text.specs.Spelling.{AreSpelled};
ghost use Rattle.kb_text.specs.Terms.{TermSpelled, problem_text};
ghost use Rattle.kb_text.specs.Tokens.{placed_tokens};

use kb_term::MAX_PROBLEM_BYTES;

/// The bytes of a text are the texts of its tokens in order, each at its place, with white space between. A mark is the longest
/// that begins there; at no byte of an identifier does white space or a mark begin, and one of them, or the end, stands behind it.
pub fn tokens_spell_their_text()
    ensures { (bytes : List ℕ) → AreSpelled 0 (placed_tokens bytes) bytes }
{}

/// Bytes spell at most one term over a signature.
pub fn bytes_spell_one_term()
    ensures { (signature : Signature) (bytes : List ℕ) (t u : Tree) → IsSignature signature → TermSpelled signature bytes t → TermSpelled signature bytes u → t ≡ u }
{}

/// The text of a problem that some bytes spell spells it, where it is short enough to be read: the same problem, with its
/// symbols and variables numbered as before.
pub fn written_problems_are_spelled()
    ensures { (bytes : List ℕ) (p : Problem) → IsSignature p.signature → Spells bytes p → length (problem_text p) ≤ MAX_PROBLEM_BYTES → Spells (problem_text p) p }
{}
