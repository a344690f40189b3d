// Sizes and depths, before any term is built.
ghost use Rattle.std.specs.Prelude.{ℕ, ◌≡◌, ◌<◌, ◌≤◌, ◌+◌, length, IfOk, true, false, Some, None, Ok, IfSome, replicate};
ghost use Rattle.kb_term.specs.Tree.{Tree};
ghost use Rattle.kb_unify.specs.Table.{slot_at, IsSlot, IsTable, Solves};
ghost use Rattle.kb_unify.specs.Extent.{IsArgumentsExtent, IsSlotExtent, IsMeasured, IsMeasuredFurther, IsStuck, IsMeasurement, extent_at, extents_of, unknown_count};

use crate::table::Slot;
use kb_term::{Limit, MAX_DEPTH, MAX_SIZE, Memory};
use std::alloc::Global;

// The greatest size of a term.
const SIZE: u16 = MAX_SIZE as u16;

// The greatest depth of a term.
const DEPTH: u16 = MAX_DEPTH as u16;

/// The size and the depth of a term, each up to just above its limit.
#[derive(Clone, Copy, Debug, PartialEq, Eq)]
pub struct Extent {
    pub size: u16,
    pub depth: u16,
}

impl Extent {
    ghost use Rattle.std.specs.Prelude.{◌≡◌, ◌+◌, min, max};
    ghost use Rattle.kb_term.specs.Tree.{Tree};
    ghost use Rattle.kb_unify.specs.Extent.{IsExtent, extent_limit};

    /// The extent of no terms.
    pub fn empty() -> Extent
        ensures size { result.size ≡ 0 }
        ensures depth { result.depth ≡ 0 }
    {
        Extent { size: 0, depth: 0 }
    }

    /// The extent of a variable.
    pub fn of_variable() -> Extent
        ensures size { result.size ≡ 1 }
        ensures depth { result.depth ≡ 1 }
    {
        Extent { size: 1, depth: 1 }
    }

    /// The extent of these terms and another one.
    pub fn with(self, term: Extent) -> Extent
        ensures size { result.size ≡ min (term.size + self.size) (MAX_SIZE + 1) }
        ensures depth { result.depth ≡ max term.depth self.depth }
    {
        Extent {
            size: term.size.saturating_add(self.size).min(SIZE + 1),
            depth: term.depth.max(self.depth),
        }
    }

    /// The extent of a symbol applied to these terms.
    pub fn applied(self) -> Extent
        ensures size { result.size ≡ min (self.size + 1) (MAX_SIZE + 1) }
        ensures depth { result.depth ≡ min (self.depth + 1) (MAX_DEPTH + 1) }
    {
        Extent {
            size: self.size.saturating_add(1).min(SIZE + 1),
            depth: self.depth.saturating_add(1).min(DEPTH + 1),
        }
    }

    /// The limit that a term of this extent passes.
    pub fn limit(self) -> Option<Limit>
        ensures { result ≡ extent_limit self }
    {
        if self.size > SIZE {
            Some(Limit::Size)
        } else if self.depth > DEPTH {
            Some(Limit::Depth)
        } else {
            None
        }
    }
}

/// The extent of the arguments together, where all are known.
pub fn arguments_extent(first: usize, count: usize, known: &[Option<Extent>]) -> Option<Extent>
    requires { first + count ≤ length known.now }
    ensures { IsArgumentsExtent known.now first count result }
{
    let mut together = Extent::empty();
    for k in 0..count {
        let Some(extent) = known[first + k] else {
            return None;
        };
        together = together.with(extent);
    }
    Some(together)
}

/// The extent of the term that the slot of a place makes, where those of the places that it names are known.
pub fn slot_extent(place: usize, slot: Slot, known: &[Option<Extent>]) -> Option<Extent>
    requires inside { place < length known.now }
    requires slot { IsSlot (length known.now) place slot }
    ensures { IsSlotExtent known.now place slot result }
{
    match slot {
        Slot::Free => Some(Extent::of_variable()),
        Slot::Link(next) => known[next],
        Slot::Node(_, first, count) => match arguments_extent(first, count, known) {
            None => None,
            Some(extent) => Some(extent.applied()),
        },
    }
}

/// Measures what can be measured by what is known: how many places.
///
/// It goes from the last place to the first, since the arguments of a node stand behind it: one pass measures a term of any depth.
pub fn measure_more(slots: &[Slot], known: &mut Vec<Option<Extent>>) -> usize
    requires table { IsTable slots.now }
    requires lengths { length known.old.items ≡ length slots.now }
    ensures further { IsMeasuredFurther slots.now known.old.items known.new.items }
    ensures measured { unknown_count known.new.items + result ≡ unknown_count known.old.items }
    ensures stuck { result ≡ 0 → (i : ℕ) → i < length slots.now → extent_at known.new.items i ≡ None → IsStuck (λ j. extent_at known.new.items j ≡ None) (slot_at slots.now i) }
{
    let mut measured = 0;
    for done in 0..slots.len() {
        let i = slots.len() - 1 - done;
        match known[i] {
            Some(_) => {}
            None => match slot_extent(i, slots[i], known) {
                None => {}
                Some(extent) => {
                    known[i] = Some(extent);
                    measured += 1;
                }
            },
        }
    }
    measured
}

/// No extents yet.
pub fn nothing_known(alloc: Global, count: usize) -> Result<Vec<Option<Extent>>, Memory>
    ensures { IfOk result (λ v. v.items ≡ replicate count None) }
{
    let mut known = Vec::with_capacity(alloc, count)?;
    known.resize(count, None)?;
    Ok(known)
}

/// Measures until nothing new can be measured: whether all places are.
pub fn measure_all(slots: &[Slot], known: &mut Vec<Option<Extent>>) -> bool
    requires table { IsTable slots.now }
    requires lengths { length known.old.items ≡ length slots.now }
    requires nothing { unknown_count known.old.items ≡ length slots.now }
    ensures further { IsMeasuredFurther slots.now known.old.items known.new.items }
    ensures all { result ≡ true → unknown_count known.new.items ≡ 0 }
    ensures some { result ≡ false → 0 < unknown_count known.new.items }
    ensures stuck { result ≡ false → (i : ℕ) → i < length slots.now → extent_at known.new.items i ≡ None → IsStuck (λ j. extent_at known.new.items j ≡ None) (slot_at slots.now i) }
{
    let mut left = slots.len();
    while left > 0 {
        let measured = measure_more(slots, known);
        if measured == 0 {
            return false;
        }
        left -= measured;
    }
    true
}

/// The extents of all places, where the table has a solution; none where it has none.
pub fn measure(alloc: Global, slots: &[Slot]) -> Result<Option<Vec<Option<Extent>>>, Memory>
    requires { IsTable slots.now }
    ensures solution { IfOk result (λ o. IfSome o (λ v. IsMeasurement slots.now (Some (extents_of v.items)))) }
    ensures none { result ≡ Ok None → IsMeasurement slots.now None }
{
    let mut known = nothing_known(alloc, slots.len())?;
    if measure_all(slots, &mut known) {
        Ok(Some(known))
    } else {
        Ok(None)
    }
}
