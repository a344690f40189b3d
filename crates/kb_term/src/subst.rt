// Substitutions.
ghost use Rattle.std.specs.Prelude.{◌≡◌, ◌≤◌, min, IfOk, MatchOption};
ghost use Rattle.kb_term.specs.Tree.{variable, tree_size, tree_depth};
ghost use Rattle.kb_term.specs.Substitution.{instance, substitution_of};
ghost use Rattle.kb_term.specs.Made.{IsLimitedAnswer};
ghost use Rattle.kb_term.specs.View.{tree_of, entries_of_list};

use crate::fault::TermFault;
use crate::limit::Limit;
use crate::limits::{MAX_DEPTH, MAX_SIZE, depth_up_to, size_up_to};
use crate::memory::Memory;
use crate::term::{Term, Terms};
use std::alloc::{AllocError, Global};
use std::marker::Model;

/// Variables and the terms that they get; any other variable stays. Where a variable is listed twice, its first term counts.
#[derive(Drop)]
pub struct Subst {
    entries: Vec<(u16, Term)>,
}

impl Model for Subst {
    ghost use Rattle.std.specs.Prelude.{List, ℕ};
    ghost use Rattle.std.specs.Coded.{coded_list, coded×, coded_ℕ};
    ghost use Rattle.kb_term.specs.Tree.{Tree};
    ghost use Rattle.kb_term.specs.Coding.{coded_tree};

    ghost Value = { List (ℕ × Tree) };

    ghost coded = { coded_list (coded× coded_ℕ coded_tree) };

    ghost use Rattle.kb_term.specs.View.{entries_of_list};

    ghost view = { λ a. entries_of_list a.entries.items };
}

impl Subst {
    /// The substitution of these variables and terms.
    pub fn new(entries: Vec<(u16, Term)>) -> Subst
        ensures { result ≡ entries_of_list entries.items }
    {
        Subst { entries }
    }

    /// The variables and their terms.
    pub fn entries(&self) -> &[(u16, Term)]
        ensures { entries_of_list result.now ≡ self.now }
    {
        &self.entries
    }

    /// The variables and their terms, given back without a copy.
    pub fn into_entries(self) -> Vec<(u16, Term)>
        ensures { entries_of_list result.items ≡ self }
    {
        self.entries
    }

    /// The term of a variable; none where the variable stays.
    pub fn get(&self, n: u16) -> Option<&Term>
        ensures { MatchOption result (substitution_of self.now n ≡ variable n) (λ u. substitution_of self.now n ≡ tree_of u.now) }
    {
        for entry in &self.entries {
            if entry.0 == n {
                return Some(&entry.1);
            }
        }
        None
    }
}

impl Clone for Subst {
    ghost is_clone = { λ m k. k ≡ m };

    fn clone(&self) -> Result<Subst, AllocError> {
        let entries = self.entries.clone()?;
        Ok(Subst { entries })
    }
}

/// The term with each variable replaced by what the substitution gives it.
///
/// `Large(Size)` where the result is larger than 512, and `Large(Depth)` where it is not and is deeper than 64; both are decided before anything is built.
pub fn apply(alloc: Global, m: &Subst, t: &Term) -> Result<Term, TermFault>
    ensures { IsLimitedAnswer (instance (substitution_of m.now) (tree_of t.now)) result }
{
    if instance_size_up_to(m, t, MAX_SIZE + 1) > MAX_SIZE {
        return Err(TermFault::Large(Limit::Size));
    }
    if instance_depth_up_to(m, t, MAX_DEPTH + 1) > MAX_DEPTH {
        return Err(TermFault::Large(Limit::Depth));
    }
    let made = instance_of(alloc, m, t)?;
    Ok(made)
}

/// The term with each variable replaced by what the substitution gives it, whatever its size.
///
/// It takes memory for each node of the result, so where the result may pass a limit `apply` is the call to take.
pub fn instance_of(alloc: Global, m: &Subst, t: &Term) -> Result<Term, Memory>
    ensures { IfOk result (λ u. tree_of u ≡ instance (substitution_of m.now) (tree_of t.now)) }
{
    match t {
        Term::Var(n) => match m.get(*n) {
            Some(u) => Ok(u.clone()?),
            None => Ok(Term::Var(*n)),
        },
        Term::App(f, arguments) => {
            let mut items = Vec::with_capacity(alloc, arguments.items.len())?;
            for argument in &arguments.items {
                items.push(instance_of(alloc, m, argument)?)?;
            }
            Ok(Term::App(*f, Terms { items }))
        }
    }
}

/// The size of the instance, or the cap where that is less.
fn instance_size_up_to(m: &Subst, t: &Term, cap: u32) -> u32
    ensures { result ≡ min (tree_size (instance (substitution_of m.now) (tree_of t.now))) cap }
{
    if cap == 0 {
        return 0;
    }
    match t {
        Term::Var(n) => match m.get(*n) {
            Some(u) => size_up_to(u, cap),
            None => 1,
        },
        Term::App(_, arguments) => {
            let mut total = 1;
            for argument in &arguments.items {
                total += instance_size_up_to(m, argument, cap - total);
            }
            total
        }
    }
}

/// The depth of the instance, or the cap where that is less.
fn instance_depth_up_to(m: &Subst, t: &Term, cap: u32) -> u32
    ensures { result ≡ min (tree_depth (instance (substitution_of m.now) (tree_of t.now))) cap }
{
    if cap == 0 {
        return 0;
    }
    match t {
        Term::Var(n) => match m.get(*n) {
            Some(u) => depth_up_to(u, cap),
            None => 1,
        },
        Term::App(_, arguments) => {
            let mut deepest = 0;
            for argument in &arguments.items {
                deepest = instance_depth_up_to(m, argument, cap - 1).max(deepest);
            }
            deepest + 1
        }
    }
}
