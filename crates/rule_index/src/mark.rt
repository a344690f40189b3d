// Left sides as strings of marks.
ghost use Rattle.std.specs.Prelude.{◌≡◌, ◌++◌, OnOk};
ghost use Rattle.kb_term.specs.View.{tree_of};
ghost use Rattle.rule_index.specs.Marks.{marks_of};

use kb_term::{Memory, Term};

/// What stands at one place of a left side.
#[derive(Clone, Copy, PartialEq, Eq)]
pub(crate) enum Mark {
    /// A variable, whichever it is.
    Any,
    /// A symbol, by its number, and of how many arguments.
    Apply(u8, usize),
}

/// Adds the marks of the term, read from left to right.
pub(crate) fn push_marks(t: &Term, marks: &mut Vec<Mark>) -> Result<(), Memory>
    ensures { OnOk result (marks.new.items ≡ marks.old.items ++ marks_of (tree_of t.now)) }
{
    match t {
        Term::Var(_) => marks.push(Mark::Any)?,
        Term::App(f, arguments) => {
            let arguments = arguments.items();
            marks.push(Mark::Apply(f.0, arguments.len()))?;
            for argument in arguments {
                push_marks(argument, marks)?;
            }
        }
    }
    Ok(())
}
