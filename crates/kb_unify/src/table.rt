// Tables of flat equations: union of places, and the terms of the problem in it.
ghost use Rattle.std.specs.Prelude.{ℕ, ◌≡◌, ◌<◌, ◌≤◌, ◌+◌, ◌^◌, ◌++◌, length, replicate, IfOk, Contains, true, false};
ghost use Rattle.kb_term.specs.Tree.{Tree, variables_of, tree_size};
ghost use Rattle.kb_term.specs.View.{tree_of};
ghost use Rattle.kb_term.specs.Tree.{HasVariablesBelow};
ghost use Rattle.kb_unify.specs.Table.{slot_at, IsTable, IsRoot, Solves, Equates, ArePlaces, IsFlattened, IsJoined, IsClosed, argument_pairs};

use kb_term::{Memory, Symbol, Term};

/// So many variables are in two terms at most: 64 of either side.
pub const VARIABLES: usize = 128;

/// What is known of a place: nothing, that it is a symbol applied to consecutive places, or that it is a lower place.
#[derive(Clone, Copy, Debug, PartialEq, Eq)]
pub enum Slot {
    Free,
    Node(Symbol, usize, usize),
    Link(usize),
}

/// Adds free places.
pub fn reserve(count: usize, slots: &mut Vec<Slot>) -> Result<(), Memory>
    ensures { IfOk result (λ _. slots.new.items ≡ slots.old.items ++ replicate count Slot.Free) }
{
    for k in 0..count {
        slots.push(Slot::Free)?;
    }
    Ok(())
}

/// Puts the term at the free place; the place of a variable is its number.
pub fn flatten(t: &Term, at: usize, slots: &mut Vec<Slot>) -> Result<(), Memory>
    requires table { IsTable slots.old.items }
    requires inside { at < length slots.old.items }
    requires free { slot_at slots.old.items at ≡ Slot.Free }
    requires variables { HasVariablesBelow at (tree_of t.now) }
    ensures { IfOk result (λ _. IsFlattened slots.old.items slots.new.items at (tree_of t.now)) }
{
    match t {
        Term::Var(n) => {
            slots[at] = Slot::Link(*n as usize);
            Ok(())
        }
        Term::App(f, arguments) => {
            let first = slots.len();
            let items = arguments.items();
            reserve(items.len(), slots)?;
            slots[at] = Slot::Node(*f, first, items.len());
            for k in 0..items.len() {
                flatten(&items[k], first + k, slots)?;
            }
            Ok(())
        }
    }
}

/// The place at which the links from this one end.
pub fn find(slots: &[Slot], place: usize) -> usize
    requires table { IsTable slots.now }
    requires inside { place < length slots.now }
    ensures inside { result < length slots.now }
    ensures root { IsRoot (slot_at slots.now result) }
    ensures same { (v : ℕ → Tree) → Solves v slots.now → v place ≡ v result }
{
    let mut at = place;
    while let Slot::Link(next) = slots[at] {
        at = next;
    }
    at
}

/// Adds the equations of the arguments.
pub fn push_pairs(
    first: usize,
    second: usize,
    count: usize,
    pairs: &mut Vec<(usize, usize)>,
) -> Result<(), Memory>
    requires first { first + count < 2 ^ 63 }
    requires second { second + count < 2 ^ 63 }
    ensures { IfOk result (λ _. pairs.new.items ≡ pairs.old.items ++ argument_pairs first second count) }
{
    for k in 0..count {
        pairs.push((first + k, second + k))?;
    }
    Ok(())
}

/// Makes two places one, the lower place: whether they can be.
pub fn join(
    low: usize,
    high: usize,
    slots: &mut Vec<Slot>,
    pairs: &mut Vec<(usize, usize)>,
) -> Result<bool, Memory>
    requires table { IsTable slots.old.items }
    requires order { low < high }
    requires inside { high < length slots.old.items }
    requires low_root { IsRoot (slot_at slots.old.items low) }
    requires high_root { IsRoot (slot_at slots.old.items high) }
    requires places { ArePlaces (length slots.old.items) pairs.old.items }
    ensures joined { result ≡ Ok true → IsJoined slots.old.items slots.new.items pairs.old.items pairs.new.items low high }
    ensures clash { result ≡ Ok false → (v : ℕ → Tree) → Solves v slots.old.items → ¬ (v low ≡ v high) }
{
    match (slots[low], slots[high]) {
        (Slot::Node(f, first, count), Slot::Node(g, second, other)) => {
            if f != g || count != other {
                return Ok(false);
            }
            push_pairs(first, second, count, pairs)?;
        }
        (Slot::Free, slot) => slots[low] = slot,
        (Slot::Node(_, _, _), Slot::Free) => {}
        (Slot::Link(_), _) => {}
        (_, Slot::Link(_)) => {}
    }
    slots[high] = Slot::Link(low);
    Ok(true)
}

/// Adds the equation of two places: whether there is no clash.
pub fn unite(
    a: usize,
    b: usize,
    slots: &mut Vec<Slot>,
    pairs: &mut Vec<(usize, usize)>,
) -> Result<bool, Memory>
    requires table { IsTable slots.old.items }
    requires a_inside { a < length slots.old.items }
    requires b_inside { b < length slots.old.items }
    requires places { ArePlaces (length slots.old.items) pairs.old.items }
    ensures joined { result ≡ Ok true → IsJoined slots.old.items slots.new.items pairs.old.items pairs.new.items a b }
    ensures clash { result ≡ Ok false → (v : ℕ → Tree) → Solves v slots.old.items → ¬ (v a ≡ v b) }
{
    let i = find(slots, a);
    let j = find(slots, b);
    if i < j {
        join(i, j, slots, pairs)
    } else if j < i {
        join(j, i, slots, pairs)
    } else {
        Ok(true)
    }
}

/// Works off the pairs: whether the table with them has no clash.
pub fn close(slots: &mut Vec<Slot>, pairs: &mut Vec<(usize, usize)>) -> Result<bool, Memory>
    requires table { IsTable slots.old.items }
    requires places { ArePlaces (length slots.old.items) pairs.old.items }
    ensures closed { result ≡ Ok true → IsClosed slots.old.items slots.new.items pairs.old.items }
    ensures clash { result ≡ Ok false → (v : ℕ → Tree) → Solves v slots.old.items → ¬ Equates v pairs.old.items }
{
    while let Some((a, b)) = pairs.pop() {
        if !unite(a, b, slots, pairs)? {
            return Ok(false);
        }
    }
    Ok(true)
}
