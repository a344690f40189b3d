// What is said of each refusal.
ghost use Rattle.std.specs.Prelude.{◌≡◌};
ghost use Rattle.mkbtt_shown.specs.Sentences.{bound_sentence as sentence_of_bound, kind_sentence as sentence_of_kind, spent_sentence as sentence_of_spent};

use kb_label::Spent;
use kb_text::{Bound, Kind};

fn bound_sentence(bound: Bound) -> &'static [u8]
    ensures { result.now ≡ sentence_of_bound bound }
{
    match bound {
        Bound::Name => b"A name has at most 64 bytes.\n",
        Bound::Equations => b"A problem has at most 256 equations.\n",
        Bound::Size => b"A side of an equation has at most 512 names.\n",
        Bound::Depth => b"Terms are nested at most 64 deep.\n",
        Bound::Symbols => b"A problem has at most 24 function symbols.\n",
        Bound::Variables => b"An equation has at most 64 variables.\n",
        Bound::Arity => b"A symbol takes at most 8 arguments.\n",
        Bound::Input => {
            b"A problem has at most 1048576 bytes, an answer with what stands behind it 67108864.\n"
        }
    }
}

/// What is said of a refused problem.
pub(crate) fn kind_sentence(kind: Kind) -> &'static [u8]
    ensures { result.now ≡ sentence_of_kind kind }
{
    match kind {
        Kind::NotUtf8 => b"This isn't UTF-8.\n",
        Kind::Unclosed => b"The text ends here, within parentheses that are still open.\n",
        Kind::BadSection => {
            b"A section is wanted here: (VAR x y) before (RULES s == t), and one with rules at least.\n"
        }
        Kind::Theory => b"Theories aren't read: write their axioms as equations.\n",
        Kind::Strategy => b"Strategies aren't read: leave this section out.\n",
        Kind::DoubleVariable => b"This variable was named before: each is named once.\n",
        Kind::Relative => b"Relative rules aren't read: write == or ->.\n",
        Kind::Conditional => b"Conditions aren't read: each equation stands alone, s == t.\n",
        Kind::VariableApplied => {
            b"This is a variable, named by a section VAR: it takes no arguments.\n"
        }
        Kind::ArityClash => {
            b"This symbol has another number of arguments than where it came first: each symbol has one.\n"
        }
        Kind::BadToken => {
            b"This doesn't belong here: equations are written s == t, and arguments f(s,t).\n"
        }
        Kind::Limit(bound) => bound_sentence(bound),
    }
}

/// What is said of a run whose budget is used up.
pub(crate) fn spent_sentence(spent: Spent) -> &'static [u8]
    ensures { result.now ≡ sentence_of_spent spent }
{
    match spent {
        Spent::Commits => {
            b"The budget is used up: try a greater one (--budget, up to 100000) or the other selection (--select).\n"
        }
        Spent::Over(_) => {
            b"Each process that didn't fail passed a limit: try the other selection (--select).\n"
        }
    }
}
