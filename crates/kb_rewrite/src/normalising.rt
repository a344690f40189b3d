// Normal forms by the strategy.
ghost use Rattle.std.specs.Prelude.{ℕ, [], IfOk, MatchOption, false};
ghost use Rattle.kb_term.specs.View.{tree_of};
ghost use Rattle.kb_rewrite.specs.NormalForm.{IsRedex, StrategyStep, NormalisesTo};
ghost use Rattle.kb_rewrite.specs.Answers.{normalised, IsTried};

use crate::rewriting::matched;
use crate::system::System;
use kb_term::{Limit, Memory, Rule, Term, Terms, instance_of, term_limit};
use std::alloc::Global;
use std::mem;

/// The most steps of one normalisation.
pub const MAX_STEPS: u32 = 10000;

/// What normalising a term answers.
#[derive(Drop)]
pub enum Normal {
    /// The normal form, and how many steps lead to it.
    Form(Term, u32),
    /// So many steps were made, and a redex is left.
    Long(u32),
    /// The limit that the result of a step passes.
    Large(Limit),
}

/// The normal form of the term: while it has a redex, it is rewritten at the first position in preorder at which a rule applies,
/// by the first such rule.
///
/// `Form` with the number of steps where at most 10,000 steps lead to a term without redex. `Large(Size)` where the result of one of
/// the first 10,000 steps is larger than 512, and `Large(Depth)` where it is not and is deeper than 64; the first such result
/// decides. `Long(10000)` where none of these results passes a limit and a redex is left after them.
///
/// A step visits the positions up to its redex, with one match for each rule of the same root symbol, and moves each argument that
/// it visits out and back. It builds the instance of the right side and copies nothing else. The limits take two more walks over
/// the result and no memory.
pub fn normal_form(alloc: Global, rules: &[Rule], t: &Term) -> Result<Normal, Memory>
    ensures { IfOk result (λ r. NormalisesTo rules.now (tree_of t.now) (normalised r)) }
{
    System::scanning(rules).normal_form(alloc, t)
}

/// What becomes of a term of which one step is asked for: the result, or the term itself, which has no redex.
#[derive(Drop)]
pub(crate) enum Tried {
    Rewritten(Term),
    Same(Term),
}

impl<'a> System<'a> {
    /// The normal form of the term, as [`normal_form`] says.
    pub fn normal_form(&self, alloc: Global, t: &Term) -> Result<Normal, Memory>
        ensures { IfOk result (λ r. NormalisesTo self.now (tree_of t.now) (normalised r)) }
    {
        let mut term = t.clone()?;
        for count in 0..MAX_STEPS {
            match self.rewrite_first(alloc, term)? {
                Tried::Same(form) => return Ok(Normal::Form(form, count)),
                Tried::Rewritten(next) => {
                    if let Some(limit) = term_limit(&next) {
                        return Ok(Normal::Large(limit));
                    }
                    term = next;
                }
            }
        }
        match self.rewrite_first(alloc, term)? {
            Tried::Same(form) => Ok(Normal::Form(form, MAX_STEPS)),
            Tried::Rewritten(_) => Ok(Normal::Long(MAX_STEPS)),
        }
    }

    /// The term after one step of the strategy. The parts beside the redex are moved and not copied.
    fn rewrite_first(&self, alloc: Global, t: Term) -> Result<Tried, Memory>
        ensures { IfOk result (IsTried self.now (tree_of t)) }
    {
        if let Some(made) = self.rewrite_root(alloc, &t)? {
            return Ok(Tried::Rewritten(made));
        }
        match t {
            Term::Var(n) => Ok(Tried::Same(Term::Var(n))),
            Term::App(f, arguments) => {
                let mut items = arguments.into_items();
                for k in 0..items.len() {
                    let item = mem::replace(&mut items[k], Term::Var(0));
                    match self.rewrite_first(alloc, item)? {
                        Tried::Same(same) => items[k] = same,
                        Tried::Rewritten(made) => {
                            items[k] = made;
                            return Ok(Tried::Rewritten(Term::App(f, Terms::new(items))));
                        }
                    }
                }
                Ok(Tried::Same(Term::App(f, Terms::new(items))))
            }
        }
    }

    /// The term after the first rule that matches it is used at its root; none where no rule matches it.
    fn rewrite_root(&self, alloc: Global, t: &Term) -> Result<Option<Term>, Memory>
        ensures { IfOk result (λ o. MatchOption o ((i : ℕ) → ¬ IsRedex self.now false (tree_of t.now) [] i) (λ u. StrategyStep self.now (tree_of t.now) (tree_of u))) }
    {
        let Some(i) = self.first_applying(alloc, t, false, t)? else {
            return Ok(None);
        };
        let rule = &self.rules()[i];
        let m = matched(alloc, rule.left(), t)?;
        Ok(Some(instance_of(alloc, &m, rule.right())?))
    }
}
