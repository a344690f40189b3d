// Terms with another subterm at a position.
ghost use Rattle.std.specs.Prelude.{◌≡◌, ◌≤◌, min, Some, IfOk, IsSomeAnd};
ghost use Rattle.kb_term.specs.Tree.{Tree, tree_size, tree_depth};
ghost use Rattle.kb_term.specs.Position.{IsPosition, replace_at};
ghost use Rattle.kb_term.specs.Made.{IsLimitedAnswer};
ghost use Rattle.kb_term.specs.View.{tree_of};

use crate::fault::TermFault;
use crate::limit::Limit;
use crate::limits::{MAX_DEPTH, MAX_SIZE, depth_up_to, size_up_to};
use crate::memory::Memory;
use crate::position::Position;
use crate::term::{Term, Terms};
use std::alloc::Global;

/// The term with `u` at the position.
///
/// `Large(Size)` where the result is larger than 512, and `Large(Depth)` where it is not and is deeper than 64; both are decided before anything is built.
pub fn replace(alloc: Global, t: &Term, p: &Position, u: &Term) -> Result<Term, TermFault>
    requires { IsPosition (tree_of t.now) p.now }
    ensures { IsSomeAnd (replace_at (tree_of t.now) p.now (tree_of u.now)) (λ v. IsLimitedAnswer v result) }
{
    let steps = p.steps();
    if replaced_size_up_to(t, steps, u, MAX_SIZE + 1) > MAX_SIZE {
        return Err(TermFault::Large(Limit::Size));
    }
    if replaced_depth_up_to(t, steps, u, MAX_DEPTH + 1) > MAX_DEPTH {
        return Err(TermFault::Large(Limit::Depth));
    }
    let made = replaced(alloc, t, steps, u)?;
    Ok(made)
}

fn replaced(alloc: Global, t: &Term, steps: &[u8], u: &Term) -> Result<Term, Memory>
    ensures { IfOk result (λ w. (v : Tree) → replace_at (tree_of t.now) steps.now (tree_of u.now) ≡ Some v → tree_of w ≡ v) }
{
    match steps {
        [] => Ok(u.clone()?),
        [step, rest @ ..] => match t {
            Term::Var(n) => Ok(Term::Var(*n)),
            Term::App(f, arguments) => {
                let mut items = Vec::with_capacity(alloc, arguments.items.len())?;
                for (i, argument) in arguments.items.iter().enumerate() {
                    let item = if i + 1 == *step as usize {
                        replaced(alloc, argument, rest, u)?
                    } else {
                        argument.clone()?
                    };
                    items.push(item)?;
                }
                Ok(Term::App(*f, Terms { items }))
            }
        },
    }
}

/// The size of the replaced term, or the cap where that is less.
fn replaced_size_up_to(t: &Term, steps: &[u8], u: &Term, cap: u32) -> u32
    ensures size { (v : Tree) → replace_at (tree_of t.now) steps.now (tree_of u.now) ≡ Some v → result ≡ min (tree_size v) cap }
    ensures bound { result ≤ cap }
{
    if cap == 0 {
        return 0;
    }
    match steps {
        [] => size_up_to(u, cap),
        [step, rest @ ..] => match t {
            Term::Var(_) => 0,
            Term::App(_, arguments) => {
                let mut total = 1;
                for (i, argument) in arguments.items.iter().enumerate() {
                    let room = cap - total;
                    total += if i + 1 == *step as usize {
                        replaced_size_up_to(argument, rest, u, room)
                    } else {
                        size_up_to(argument, room)
                    };
                }
                total
            }
        },
    }
}

/// The depth of the replaced term, or the cap where that is less.
fn replaced_depth_up_to(t: &Term, steps: &[u8], u: &Term, cap: u32) -> u32
    ensures depth { (v : Tree) → replace_at (tree_of t.now) steps.now (tree_of u.now) ≡ Some v → result ≡ min (tree_depth v) cap }
    ensures bound { result ≤ cap }
{
    if cap == 0 {
        return 0;
    }
    match steps {
        [] => depth_up_to(u, cap),
        [step, rest @ ..] => match t {
            Term::Var(_) => 0,
            Term::App(_, arguments) => {
                let mut deepest = 0;
                for (i, argument) in arguments.items.iter().enumerate() {
                    let here = if i + 1 == *step as usize {
                        replaced_depth_up_to(argument, rest, u, cap - 1)
                    } else {
                        depth_up_to(argument, cap - 1)
                    };
                    deepest = here.max(deepest);
                }
                deepest + 1
            }
        },
    }
}
