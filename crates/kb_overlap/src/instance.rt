// Instances: their sizes and depths, before any of them is built, and one with another term put in.
ghost use Rattle.std.specs.Prelude.{ℕ, ◌≡◌, ◌≤◌, Some, IfOk};
ghost use Rattle.kb_term.specs.Tree.{Tree, tree_size, tree_depth};
ghost use Rattle.kb_term.specs.Position.{replace_at};
ghost use Rattle.kb_term.specs.Substitution.{instance};
ghost use Rattle.kb_term.specs.View.{tree_of};
ghost use Rattle.kb_unify.specs.Extent.{IsExtent};
ghost use Rattle.kb_term.specs.Substitution.{substitution_of};
ghost use Rattle.kb_overlap.specs.Instance.{IsSmall};

use kb_term::{Memory, Subst, Term, Terms, depth, instance_of, size};
use kb_unify::Extent;
use std::alloc::Global;

/// The extent of what the variable gets.
fn variable_extent(m: &Subst, n: u16) -> Extent
    requires { IsSmall (substitution_of m.now) }
    ensures { IsExtent result (substitution_of m.now n) }
{
    match m.get(n) {
        None => Extent::of_variable(),
        Some(t) => Extent {
            size: size(t) as u16,
            depth: depth(t) as u16,
        },
    }
}

/// The extent of the term under the substitution.
pub(crate) fn instance_extent(m: &Subst, t: &Term) -> Extent
    requires { IsSmall (substitution_of m.now) }
    ensures { IsExtent result (instance (substitution_of m.now) (tree_of t.now)) }
{
    match t {
        Term::Var(n) => variable_extent(m, *n),
        Term::App(_, arguments) => {
            let items = arguments.items();
            let mut together = Extent::empty();
            for k in 0..items.len() {
                together = together.with(instance_extent(m, &items[k]));
            }
            together.applied()
        }
    }
}

/// The instance of the term with `inner` at the position of these steps.
pub(crate) fn instance_with(
    alloc: Global,
    m: &Subst,
    t: &Term,
    steps: &[u8],
    inner: &Term,
) -> Result<Term, Memory>
    ensures { IfOk result (λ u. (v : Tree) → replace_at (tree_of t.now) steps.now (tree_of inner.now) ≡ Some v → tree_of u ≡ instance (substitution_of m.now) v) }
{
    match steps {
        [] => instance_of(alloc, m, inner),
        [step, rest @ ..] => match t {
            Term::Var(n) => Ok(Term::Var(*n)),
            Term::App(f, arguments) => {
                let parts = arguments.items();
                let mut items = Vec::with_capacity(alloc, parts.len())?;
                for (i, argument) in parts.iter().enumerate() {
                    let item = if i + 1 == *step as usize {
                        instance_with(alloc, m, argument, rest, inner)?
                    } else {
                        instance_of(alloc, m, argument)?
                    };
                    items.push(item)?;
                }
                Ok(Term::App(*f, Terms::new(items)))
            }
        },
    }
}
