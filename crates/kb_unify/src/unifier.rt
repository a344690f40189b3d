// Unification.
ghost use Rattle.std.specs.Prelude.{ℕ, ◌≡◌, ◌<◌, ◌≤◌, ◌+◌, ◌↔◌, length, IfOk, Ok, true, false, Contains, [], ◌∷◌};
ghost use Rattle.kb_term.specs.Tree.{Tree, variables_of};
ghost use Rattle.kb_term.specs.View.{tree_of};
ghost use Rattle.kb_unify.specs.Unifier.{IsMostGeneralUnifier};
ghost use Rattle.kb_unify.specs.Table.{IsTable, IsClosed, Solves, Equates};
ghost use Rattle.kb_unify.specs.Reading.{IsTableOf};
ghost use Rattle.kb_unify.specs.Answer.{unifier_limit, IsUnified, IsUnifyAnswer};
ghost use Rattle.kb_term.specs.Tree.{HasVariablesBelow};

use crate::clashing::clashes;
use crate::extent::measure;
use crate::fault::UnifyFault;
use crate::reading::{limit_passed, read_off};
use crate::table::{Slot, VARIABLES, close, flatten};
use kb_term::{Limit, Memory, Subst, Term, variable_bound};
use std::alloc::Global;

// So many places have room in a table behind the variables before it is moved: both terms, and what most terms are made of.
const ROOM: usize = 64;

/// What is found of two terms: that nothing unifies them, a limit that the most general unifier passes, or the unifier.
#[derive(Drop)]
pub enum Unified {
    Clash,
    Above(Limit),
    Unifier(Subst),
}

/// How many places the variables of both terms take: one more than the greatest.
pub fn variable_places(a: &Term, b: &Term) -> usize
    ensures { (n : ℕ) → (result ≤ n) ↔ (HasVariablesBelow n (tree_of a.now) × HasVariablesBelow n (tree_of b.now)) }
{
    variable_bound(a).max(variable_bound(b)) as usize
}

/// The table of both terms, whose variables are the first so many places.
pub fn table_of(alloc: Global, variables: usize, a: &Term, b: &Term) -> Result<Vec<Slot>, Memory>
    requires few { variables ≤ VARIABLES }
    requires a_variables { HasVariablesBelow variables (tree_of a.now) }
    requires b_variables { HasVariablesBelow variables (tree_of b.now) }
    ensures { IfOk result (λ v. IsTableOf variables (tree_of a.now) (tree_of b.now) v.items) }
{
    let mut slots = Vec::with_capacity(alloc, variables + ROOM)?;
    slots.resize(variables + 2, Slot::Free)?;
    flatten(a, variables, &mut slots)?;
    flatten(b, variables + 1, &mut slots)?;
    Ok(slots)
}

/// Adds the equation of both terms, which stand behind so many variables: whether there is no clash.
pub fn close_table(alloc: Global, variables: usize, slots: &mut Vec<Slot>) -> Result<bool, Memory>
    requires table { IsTable slots.old.items }
    requires long { variables + 1 < length slots.old.items }
    ensures closed { result ≡ Ok true → IsClosed slots.old.items slots.new.items ((variables, variables + 1) ∷ []) }
    ensures clash { result ≡ Ok false → (v : ℕ → Tree) → Solves v slots.old.items → ¬ Equates v ((variables, variables + 1) ∷ []) }
{
    let mut pairs = Vec::new(alloc);
    pairs.push((variables, variables + 1))?;
    close(slots, &mut pairs)
}

/// The most general unifier, or what stands in its place.
pub fn solve(alloc: Global, a: &Term, b: &Term) -> Result<Unified, Memory>
    requires a_variables { HasVariablesBelow VARIABLES (tree_of a.now) }
    requires b_variables { HasVariablesBelow VARIABLES (tree_of b.now) }
    ensures { IfOk result (λ u. IsUnified (tree_of a.now) (tree_of b.now) u) }
{
    if clashes(a, b) {
        return Ok(Unified::Clash);
    }
    let variables = variable_places(a, b);
    let mut slots = table_of(alloc, variables, a, b)?;
    if !close_table(alloc, variables, &mut slots)? {
        return Ok(Unified::Clash);
    }
    match measure(alloc, &slots)? {
        None => Ok(Unified::Clash),
        Some(known) => match limit_passed(variables, &known) {
            Some(limit) => Ok(Unified::Above(limit)),
            None => Ok(Unified::Unifier(read_off(alloc, variables, &slots, &known)?)),
        },
    }
}

/// A most general unifier of the two terms, fully applied: no variable that gets a term occurs in one. None where nothing
/// makes the terms equal.
///
/// `Large(Size)` where the most general unifier gives a variable a term larger than 512, else `Large(Depth)` where it gives
/// one a term deeper than 64. Sizes and depths are decided before any term is built, so the answer takes memory for
/// the two terms and for what it gives, never for a term above the limits.
///
/// The terms are put as flat equations between places into one table, and equal places are united (Baader and Nipkow,
/// Term Rewriting and All That, 4.8, unification of term graphs); each union takes one place or one node off the table.
/// Terms that differ in a symbol at one position clash before there is a table.
pub fn unify(alloc: Global, a: &Term, b: &Term) -> Result<Option<Subst>, UnifyFault>
    requires a_variables { HasVariablesBelow 128 (tree_of a.now) }
    requires b_variables { HasVariablesBelow 128 (tree_of b.now) }
    ensures { IsUnifyAnswer (tree_of a.now) (tree_of b.now) result }
{
    match solve(alloc, a, b)? {
        Unified::Clash => Ok(None),
        Unified::Above(limit) => Err(UnifyFault::Large(limit)),
        Unified::Unifier(m) => Ok(Some(m)),
    }
}

/// Most general unifiers are one up to renaming, so any two of the same terms pass one limit: no answer of `unify`
/// depends on which of them is found.
pub fn unifiers_alike()
    ensures { (m k : ℕ → Tree) (s t : Tree) → IsMostGeneralUnifier m s t → IsMostGeneralUnifier k s t → unifier_limit m s t ≡ unifier_limit k s t }
{}
