// Overlaps of two rules.
ghost use Rattle.std.specs.Prelude.{ℕ, List, Option, Result, map, ◌≡◌, ◌+◌, ◌<◌, ◌≤◌, ◌^◌, Some, None, IfOk, IsSome, IsTrue, Contains, option_map};
ghost use Rattle.kb_term.specs.View.{tree_of};
ghost use Rattle.kb_term.specs.Position.{subtree_at, function_positions_of};
ghost use Rattle.kb_term.specs.Substitution.{instance};
ghost use Rattle.kb_term.specs.Substitution.{substitution_of};
ghost use Rattle.kb_unify.specs.Extent.{IsExtent};
ghost use Rattle.kb_overlap.specs.Instance.{IsSmall};
ghost use Rattle.kb_overlap.specs.Overlap.{IsOverlapList};
ghost use Rattle.kb_overlap.specs.Found.{parts_limit, IsSizeWithout, IsPairMade, IsPeakLimit, IsFoundAt, AreVariablesBelow};
ghost use Rattle.kb_term.specs.FewArguments.{HasFewArguments};
ghost use Rattle.kb_overlap.specs.View.{overlap_of};

use crate::instance::{instance_extent, instance_with};
use crate::positions::positions_for;
use crate::renaming::apart_from;
use kb_term::{
    Limit, MAX_DEPTH, MAX_SIZE, Memory, Position, Rule, Subst, Term, TermFault, instance_of,
    pair_limit, subterm,
};
use kb_unify::{Extent, UnifyFault, unify};
use std::alloc::Global;

/// An overlap of two rules: the position of the outer left side at which the inner one stands, and the two terms to which
/// the peak rewrites, the outer rule's first; or the first limit that the overlap passes.
#[derive(Drop)]
pub struct Overlap {
    pub position: Position,
    pub sides: Result<(Term, Term), Limit>,
}

/// The limit that a pair passes by the extents of its first term and of what is put into the second one, the rest of
/// which has the given size.
fn extents_limit(first: Extent, inserted: Extent, rest: u32) -> Option<Limit>
    requires { rest < 2 ^ 31 }
    ensures { result ≡ parts_limit first inserted rest }
{
    if u32::from(first.size) > MAX_SIZE || rest + u32::from(inserted.size) > MAX_SIZE {
        Some(Limit::Size)
    } else if u32::from(first.depth.max(inserted.depth)) > MAX_DEPTH {
        Some(Limit::Depth)
    } else {
        None
    }
}

/// The size of the term's instance, which has the given extent, without that of the subterm at the position.
fn size_without(m: &Subst, whole: Extent, t: &Term, position: &Position) -> u32
    requires small { IsSmall (substitution_of m.now) }
    requires whole { IsExtent whole (instance (substitution_of m.now) (tree_of t.now)) }
    requires within { whole.size ≤ MAX_SIZE }
    ensures rest { IsSizeWithout (substitution_of m.now) (tree_of t.now) position.now result }
    ensures small { result ≤ MAX_SIZE }
{
    match subterm(t, position) {
        None => 0,
        Some(u) => u32::from(whole.size - instance_extent(m, u).size),
    }
}

/// The limit that the peak or the pair that the unifier makes passes by the sizes and depths of its parts, before any term
/// is built.
fn peak_limit(outer: &Rule, renamed: &Rule, position: &Position, m: &Subst) -> Option<Limit>
    requires small { IsSmall (substitution_of m.now) }
    requires there { IsSome (subtree_at outer.now.left position.now) }
    ensures { IsPeakLimit outer.now renamed.now position.now (substitution_of m.now) result }
{
    let peak = instance_extent(m, outer.left());
    if let Some(limit) = peak.limit() {
        return Some(limit);
    }
    let first = instance_extent(m, outer.right());
    let inserted = instance_extent(m, renamed.right());
    let rest = size_without(m, peak, outer.left(), position);
    extents_limit(first, inserted, rest)
}

/// The pair that the unifier makes, or the limit that its peak or the pair passes.
///
/// Sizes are decided first: no term larger than the limit is built.
fn critical_pair(
    alloc: Global,
    outer: &Rule,
    renamed: &Rule,
    position: &Position,
    m: &Subst,
) -> Result<(Term, Term), TermFault>
    requires small { IsSmall (substitution_of m.now) }
    requires there { IsSome (subtree_at outer.now.left position.now) }
    ensures { IsPairMade outer.now renamed.now position.now (substitution_of m.now) result }
{
    if let Some(limit) = peak_limit(outer, renamed, position, m) {
        return Err(TermFault::Large(limit));
    }
    let first = instance_of(alloc, m, outer.right())?;
    let second = instance_with(alloc, m, outer.left(), position.steps(), renamed.right())?;
    match pair_limit(&first, &second) {
        Some(limit) => Err(TermFault::Large(limit)),
        None => Ok((first, second)),
    }
}

/// The overlap at the position of the outer rule and the inner one, which is renamed apart; none where the subterm there and
/// the inner left side have no unifier.
pub fn overlap_at(
    alloc: Global,
    outer: &Rule,
    renamed: &Rule,
    position: &Position,
) -> Result<Option<Overlap>, Memory>
    requires outer_variables { AreVariablesBelow 128 outer.now }
    requires renamed_variables { AreVariablesBelow 128 renamed.now }
    requires there { Contains (function_positions_of outer.now.left) position.now }
    ensures { IfOk result (λ o. IsFoundAt outer.now renamed.now position.now (option_map overlap_of o)) }
{
    let Some(redex) = subterm(outer.left(), position) else {
        return Ok(None);
    };
    let sides = match unify(alloc, redex, renamed.left()) {
        Ok(None) => return Ok(None),
        Ok(Some(m)) => match critical_pair(alloc, outer, renamed, position, &m) {
            Ok(pair) => Ok(pair),
            Err(TermFault::Large(limit)) => Err(limit),
            Err(TermFault::Memory) => return Err(Memory),
        },
        Err(UnifyFault::Large(limit)) => Err(limit),
        Err(UnifyFault::Memory) => return Err(Memory),
    };
    let position = position.clone()?;
    Ok(Some(Overlap { position, sides }))
}

/// The overlaps of the two rules, the inner one renamed apart, in the order of the positions of the outer left side at
/// which no variable stands. `same` says that both are one rule, which doesn't overlap itself at the root.
///
/// An overlap whose two terms are equal is listed too. One that passes a limit is listed with the first that it passes:
/// the size and then the depth of a term that the unifier gives to a variable, the size and then the depth of the peak,
/// and what the pair passes.
pub fn overlaps(
    alloc: Global,
    outer: &Rule,
    inner: &Rule,
    same: bool,
) -> Result<Vec<Overlap>, Memory>
    requires outer_variables { AreVariablesBelow 64 outer.now }
    requires inner_variables { AreVariablesBelow 64 inner.now }
    requires arguments { HasFewArguments outer.now.left }
    ensures { IfOk result (λ os. IsOverlapList outer.now inner.now same (map overlap_of os.items)) }
{
    let renamed = apart_from(alloc, outer, inner)?;
    let positions = positions_for(alloc, outer, same)?;
    let mut found = Vec::new(alloc);
    for position in &positions {
        match overlap_at(alloc, outer, &renamed, position)? {
            None => {}
            Some(overlap) => found.push(overlap)?,
        }
    }
    Ok(found)
}
