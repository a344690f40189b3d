// The positions at which overlaps are looked for.
ghost use Rattle.std.specs.Prelude.{◌≡◌, ◌++◌, map, IfOk};
ghost use Rattle.kb_term.specs.Position.{function_positions_of};
ghost use Rattle.kb_term.specs.View.{tree_of};
ghost use Rattle.kb_term.specs.FewArguments.{HasFewArguments};
ghost use Rattle.kb_overlap.specs.Overlap.{overlap_positions};

use kb_term::{Memory, Position, Rule, Term};
use std::alloc::Global;

/// Adds the positions of the term at which no variable stands, in preorder; the path leads to the term.
fn push_positions(t: &Term, path: &Position, found: &mut Vec<Position>) -> Result<(), Memory>
    requires { HasFewArguments (tree_of t.now) }
    ensures { IfOk result (λ _. found.new.items ≡ found.old.items ++ map (path.now ++◌) (function_positions_of (tree_of t.now))) }
{
    match t {
        Term::Var(_) => Ok(()),
        Term::App(_, arguments) => {
            let items = arguments.items();
            found.push(path.clone()?)?;
            for k in 0..items.len() {
                let mut argument = path.clone()?;
                argument.push((k + 1) as u8)?;
                push_positions(&items[k], &argument, found)?;
            }
            Ok(())
        }
    }
}

/// The positions of the outer left side at which no variable stands, in preorder; without the root for a rule with itself.
pub fn positions_for(alloc: Global, outer: &Rule, same: bool) -> Result<Vec<Position>, Memory>
    requires { HasFewArguments outer.now.left }
    ensures { IfOk result (λ ps. ps.items ≡ overlap_positions outer.now same) }
{
    let mut found = Vec::new(alloc);
    push_positions(outer.left(), &Position::root(alloc), &mut found)?;
    if same && !found.is_empty() {
        found.remove(0);
    }
    Ok(found)
}
