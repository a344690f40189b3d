// The first linear interpretation that orients given rules.
ghost use Rattle.std.specs.Prelude.{ℕ, ◌≡◌, ◌≤◌, ◌<◌, ◌+◌, length, true, false, IfOk, slice_index, sum_by};
ghost use Rattle.kb_term.specs.First.{IsFirst};
ghost use Rattle.kb_term.specs.Signature.{SymbolEntry};
ghost use Rattle.kb_linear.specs.Interpretations.{LinearOrients, IsLowerBound, interpretations, interpretations_to, top_constant as top_constant_of};
ghost use Rattle.kb_linear.specs.Limits.{AreMeasurable, interpretation_of};
ghost use Rattle.kb_linear.specs.Numbers.{shape_of, numbers_of, uniform, low_of, IsWithin, NoneLess, AreBounds, IsAt, IsStartAt, IsSearched};

use crate::interp::Interp;
use crate::numbers::{numbers, set_number, uniform_rows};
use crate::order::may_orient;
use kb_term::{Memory, Rule, Signature};
use std::alloc::Global;

/// The least and the greatest numbers that are tried, and those before which nothing is to be tried.
#[derive(Drop)]
struct Bounds {
    least: Vec<u8>,
    most: Vec<u8>,
    start: Vec<u8>,
}

/// The numbers that are fixed; of the others low has the least and high the greatest.
#[derive(Drop)]
struct Space {
    low: Vec<(u8, Vec<u8>)>,
    high: Vec<(u8, Vec<u8>)>,
}

/// The first number to be tried at a place: that of `start`, or the least.
fn first_number(bounds: &Bounds, k: usize, is_tight: bool) -> u8
    requires start { is_tight ≡ true → k < length bounds.now.start.items }
    requires least { k < length bounds.now.least.items }
    ensures tight { is_tight ≡ true → result ≡ slice_index bounds.now.start.items k }
    ensures loose { is_tight ≡ false → result ≡ slice_index bounds.now.least.items k }
{
    if is_tight {
        bounds.start[k]
    } else {
        bounds.least[k]
    }
}

/// Fixes the numbers from place `k` on as the first that orient the rules; what comes before `start` is skipped if it `is_tight`.
///
/// A choice is given up as soon as a rule fails with the best numbers for its left side and the best for its right side.
fn search(space: &mut Space, bounds: &Bounds, rules: &[Rule], k: usize, is_tight: bool) -> bool
    requires bounds { AreBounds (shape_of (low_of space.old)) bounds.now }
    requires at { IsAt (shape_of (low_of space.old)) bounds.now space.old k }
    requires place { k ≤ length bounds.now.least.items }
    requires measurable { AreMeasurable rules.now }
    requires start { is_tight ≡ true → IsStartAt rules.now (shape_of (low_of space.old)) bounds.now space.old k }
    ensures { IsSearched rules.now (shape_of (low_of space.old)) bounds.now k space.old space.new result }
{
    if !may_orient(&space.low, &space.high, rules) {
        return false;
    }
    if k == bounds.least.len() {
        return true;
    }
    let mut tight = is_tight;
    for value in first_number(bounds, k, is_tight)..bounds.most[k] + 1 {
        set_number(&mut space.low, k, value);
        set_number(&mut space.high, k, value);
        if search(space, bounds, rules, k + 1, tight) {
            return true;
        }
        tight = false;
    }
    set_number(&mut space.low, k, bounds.least[k]);
    set_number(&mut space.high, k, bounds.most[k]);
    false
}

/// The greatest constant that is tried, where the signature has so many constants and coefficients in all.
fn top_constant(sig: &Signature, numbers: usize) -> Option<u8>
    requires { numbers ≡ length sig.now + sum_by (λ (f : SymbolEntry). f.arity) sig.now }
    ensures { result ≡ top_constant_of sig.now }
{
    if numbers > 16 {
        None
    } else if sig.count() + numbers > 16 {
        Some(1)
    } else {
        Some(3)
    }
}

/// The first of the interpretations with constants up to `top` that orients all rules; what comes before `start` is skipped if it
/// `is_tight`.
fn search_to(
    alloc: Global,
    sig: &Signature,
    rules: &[Rule],
    low: Vec<(u8, Vec<u8>)>,
    top: u8,
    start: Vec<u8>,
    is_tight: bool,
) -> Result<Option<Interp>, Memory>
    requires few { length sig.now ≤ 24 }
    requires small { top ≤ 3 }
    requires measurable { AreMeasurable rules.now }
    requires low_least { interpretation_of low.items ≡ uniform sig.now 0 1 }
    requires start_tried { is_tight ≡ true → IsWithin (numbers_of (uniform sig.now 0 1)) (numbers_of (uniform sig.now top 2)) start.items }
    requires start_first { is_tight ≡ true → NoneLess rules.now sig.now top start.items }
    ensures { IfOk result (λ found. IsFirst (λ i. LinearOrients i rules.now) (interpretations_to sig.now top) found) }
{
    let high = uniform_rows(alloc, sig, top, 2)?;
    let bounds = Bounds {
        least: numbers(alloc, &low)?,
        most: numbers(alloc, &high)?,
        start,
    };
    let mut space = Space { low, high };
    if search(&mut space, &bounds, rules, 0, is_tight) {
        Ok(Some(Interp::new(space.low)))
    } else {
        Ok(None)
    }
}

/// The first linear interpretation of the signature that orients all rules; none where none of those that are tried does.
pub fn search_linear(
    alloc: Global,
    sig: &Signature,
    rules: &[Rule],
) -> Result<Option<Interp>, Memory>
    requires few { length sig.now ≤ 24 }
    requires measurable { AreMeasurable rules.now }
    ensures { IfOk result (λ found. IsFirst (λ i. LinearOrients i rules.now) (interpretations sig.now) found) }
{
    let low = uniform_rows(alloc, sig, 0, 1)?;
    let least = numbers(alloc, &low)?;
    match top_constant(sig, least.len()) {
        Some(top) => search_to(alloc, sig, rules, low, top, least, false),
        None => Ok(None),
    }
}

/// The same, where nothing that is tried before `start` orients all rules, as where `start` is the first for some of them.
pub fn search_linear_from(
    alloc: Global,
    sig: &Signature,
    rules: &[Rule],
    start: Interp,
) -> Result<Option<Interp>, Memory>
    requires few { length sig.now ≤ 24 }
    requires measurable { AreMeasurable rules.now }
    requires start { IsLowerBound sig.now rules.now start }
    ensures { IfOk result (λ found. IsFirst (λ i. LinearOrients i rules.now) (interpretations sig.now) found) }
{
    let low = uniform_rows(alloc, sig, 0, 1)?;
    let first = numbers(alloc, start.rows())?;
    match top_constant(sig, first.len()) {
        Some(top) => search_to(alloc, sig, rules, low, top, first, true),
        None => Ok(None),
    }
}
