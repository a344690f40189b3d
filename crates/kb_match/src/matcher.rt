// Matching.
ghost use Rattle.std.specs.Prelude.{ℕ, ◌≡◌, ◌↔◌, IfOk, IsTrue, MatchOption, Ok, true, false};
ghost use Rattle.kb_term.specs.Tree.{Tree, variables_of};
ghost use Rattle.kb_term.specs.Substitution.{instance, substitution_of, Matches};
ghost use Rattle.kb_term.specs.View.{tree_of};
ghost use Rattle.kb_match.specs.Matching.{IsMatchAnswer};
ghost use Rattle.kb_match.specs.Extending.{Gives, IsExtended, IsAbsent, IsPresent};
ghost use Rattle.kb_match.specs.Binding.{bindings_of_list};

use crate::fitting::fits;
use kb_term::{Memory, Subst, Term};
use smallvec::SmallVec;
use std::alloc::Global;

// So many variables are bound without taking memory for them. A place that no variable has taken holds none.
const INLINE_BINDINGS: usize = 8;

/// The substitution that makes the pattern the subject, with the variables of the pattern alone, each once, in the order of
/// first occurrence; none where there is none.
///
/// It takes time linear in the subject, times a look-up among the pattern's variables. No variable is bound before the pattern
/// fits the subject. Subterms are copied once the whole pattern has matched, and into the substitution alone.
pub fn match_term(alloc: Global, pattern: &Term, subject: &Term) -> Result<Option<Subst>, Memory>
    ensures { IfOk result (IsMatchAnswer (tree_of pattern.now) (tree_of subject.now)) }
{
    if !fits(pattern, subject) {
        return Ok(None);
    }
    let mut bindings = SmallVec::new(alloc);
    if extend(pattern, subject, &mut bindings)? {
        Ok(Some(copied(alloc, bindings.as_slice())?))
    } else {
        Ok(None)
    }
}

/// Whether some substitution makes the pattern the subject.
///
/// It takes the time of [`match_term`] and copies no term.
pub fn matches(alloc: Global, pattern: &Term, subject: &Term) -> Result<bool, Memory>
    ensures { IfOk result (λ b. IsTrue b ↔ Matches (tree_of pattern.now) (tree_of subject.now)) }
{
    if !fits(pattern, subject) {
        return Ok(false);
    }
    extend(pattern, subject, &mut SmallVec::new(alloc))
}

/// The substitution with copies of the terms.
fn copied(alloc: Global, bindings: &[Option<(u16, &Term)>]) -> Result<Subst, Memory>
    ensures { IfOk result (λ m. m ≡ bindings_of_list bindings.now) }
{
    let mut entries = Vec::new(alloc);
    for binding in bindings {
        if let Some((n, t)) = *binding {
            entries.push((n, t.clone()?))?;
        }
    }
    Ok(Subst::new(entries))
}

/// The term that is listed with the variable.
fn find<'a>(bindings: &[Option<(u16, &'a Term)>], n: u16) -> Option<&'a Term>
    ensures { MatchOption result (IsAbsent n (bindings_of_list bindings.now)) (λ u. IsPresent n (tree_of u.now) (bindings_of_list bindings.now)) }
{
    for binding in bindings {
        if let Some((m, t)) = *binding {
            if m == n {
                return Some(t);
            }
        }
    }
    None
}

/// Adds the variables of the pattern with their terms: whether the pattern matches the subject with the terms that are listed.
fn extend<'a>(
    pattern: &Term,
    subject: &'a Term,
    bindings: &mut SmallVec<Option<(u16, &'a Term)>, INLINE_BINDINGS>,
) -> Result<bool, Memory>
    ensures matched { result ≡ Ok true → IsExtended (variables_of (tree_of pattern.now)) (λ k. instance k (tree_of pattern.now) ≡ tree_of subject.now) (bindings_of_list bindings.old.items) (bindings_of_list bindings.new.items) }
    ensures clash { result ≡ Ok false → (k : ℕ → Tree) → Gives k (bindings_of_list bindings.old.items) → ¬ (instance k (tree_of pattern.now) ≡ tree_of subject.now) }
{
    match (pattern, subject) {
        (Term::Var(n), _) => {
            if let Some(known) = find(bindings.as_slice(), *n) {
                return Ok(*known == *subject);
            }
            bindings.push(Some((*n, subject)))?;
            Ok(true)
        }
        (Term::App(_, _), Term::Var(_)) => Ok(false),
        (Term::App(f, patterns), Term::App(g, subjects)) => {
            let patterns = patterns.items();
            let subjects = subjects.items();
            if f.0 != g.0 || patterns.len() != subjects.len() {
                return Ok(false);
            }
            for i in 0..patterns.len() {
                if !extend(&patterns[i], &subjects[i], bindings)? {
                    return Ok(false);
                }
            }
            Ok(true)
        }
    }
}
