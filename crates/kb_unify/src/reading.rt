// The substitution that a measured table makes.
ghost use Rattle.std.specs.Prelude.{ℕ, ◌≡◌, ◌<◌, ◌≤◌, length, IfOk, map};
ghost use Rattle.kb_term.specs.Tree.{Tree};
ghost use Rattle.kb_term.specs.View.{tree_of};
ghost use Rattle.kb_unify.specs.Extent.{IsSolution, extents_of};
ghost use Rattle.kb_unify.specs.Reading.{IsLimitPassed, IsReadable, ListsBelow, ListsBound, size_at, depth_at};

use crate::extent::Extent;
use crate::table::{Slot, VARIABLES};
use kb_term::{Limit, MAX_DEPTH, MAX_SIZE, Memory, Subst, Term, Terms};
use std::alloc::Global;

/// The extent of a place; an empty one where it isn't known.
pub fn known_at(known: &[Option<Extent>], place: usize) -> Extent
    requires { place < length known.now }
    ensures size { result.size ≡ size_at (extents_of known.now) place }
    ensures depth { result.depth ≡ depth_at (extents_of known.now) place }
{
    match known[place] {
        Some(extent) => extent,
        None => Extent::empty(),
    }
}

/// The limit that the term of one of so many variables passes.
pub fn limit_passed(variables: usize, known: &[Option<Extent>]) -> Option<Limit>
    requires { variables ≤ length known.now }
    ensures { IsLimitPassed variables (extents_of known.now) result }
{
    let mut deep = false;
    for i in 0..variables {
        let extent = known_at(known, i);
        if u32::from(extent.size) > MAX_SIZE {
            return Some(Limit::Size);
        }
        deep = deep || u32::from(extent.depth) > MAX_DEPTH;
    }
    if deep { Some(Limit::Depth) } else { None }
}

/// The term at a place.
pub fn build(
    alloc: Global,
    slots: &[Slot],
    known: &[Option<Extent>],
    place: usize,
) -> Result<Term, Memory>
    requires readable { IsReadable slots.now (extents_of known.now) }
    requires inside { place < length slots.now }
    requires shallow { depth_at (extents_of known.now) place ≤ MAX_DEPTH }
    ensures { IfOk result (λ t. (w : ℕ → Tree) → IsSolution slots.now (extents_of known.now) w → tree_of t ≡ w place) }
{
    match slots[place] {
        Slot::Free => Ok(Term::Var(place as u16)),
        Slot::Link(next) => build(alloc, slots, known, next),
        Slot::Node(f, first, count) => {
            let mut items = Vec::with_capacity(alloc, count)?;
            for k in 0..count {
                items.push(build(alloc, slots, known, first + k)?)?;
            }
            Ok(Term::App(f, Terms::new(items)))
        }
    }
}

/// The terms of those of so many variables that get one.
pub fn read_off(
    alloc: Global,
    variables: usize,
    slots: &[Slot],
    known: &[Option<Extent>],
) -> Result<Subst, Memory>
    requires few { variables ≤ VARIABLES }
    requires long { variables ≤ length slots.now }
    requires readable { IsReadable slots.now (extents_of known.now) }
    requires shallow { (i : ℕ) → i < variables → depth_at (extents_of known.now) i ≤ MAX_DEPTH }
    ensures terms { IfOk result (λ m. (w : ℕ → Tree) → IsSolution slots.now (extents_of known.now) w → ListsBelow variables w m) }
    ensures variables { IfOk result (λ m. ListsBound variables slots.now m) }
{
    let mut entries = Vec::new(alloc);
    for n in 0..variables {
        match slots[n] {
            Slot::Free => {}
            Slot::Link(_) | Slot::Node(_, _, _) => {
                entries.push((n as u16, build(alloc, slots, known, n)?))?;
            }
        }
    }
    Ok(Subst::new(entries))
}
