// The first redex.
ghost use Rattle.std.specs.Prelude.{ℕ, ◌≡◌, ◌<◌, ◌^◌, ◌↔◌, length, reverse, IfOk, IfSome, IsTrue, Ok, None};
ghost use Rattle.kb_term.specs.View.{tree_of};
ghost use Rattle.kb_term.specs.FewArguments.{HasFewArguments};
ghost use Rattle.kb_rewrite.specs.Search.{IsFirstAt, HasNone, IsRootRedex, IsRedexAnswer};

use crate::encompassing::found;
use crate::system::System;
use kb_term::{Found, Memory, Position, Rule, Term};
use std::alloc::Global;

/// Where a rule applies to a term: the position, the number of the rule in its list, and what the rule can do to the whole term.
#[derive(Drop)]
pub struct Redex {
    pub position: Position,
    pub rule: u32,
    pub kind: Found,
}

/// The first redex of the term: at the first position in preorder at which a rule applies, by the first such rule; none where no
/// rule applies. With `strict_only` the rules of which the term is a variant of the left side are passed over.
///
/// Each position is visited once, with one match for each rule of the same root symbol. Where there are many rules, see
/// [`System::first_redex`].
pub fn first_redex(
    alloc: Global,
    rules: &[Rule],
    t: &Term,
    strict_only: bool,
) -> Result<Option<Redex>, Memory>
    requires few_rules { length rules.now < 2 ^ 32 }
    requires few_arguments { HasFewArguments (tree_of t.now) }
    ensures { IfOk result (IsRedexAnswer rules.now strict_only (tree_of t.now)) }
{
    System::scanning(rules).first_redex(alloc, t, strict_only)
}

impl<'a> System<'a> {
    /// The first redex of the term: at the first position in preorder at which a rule applies, by the first such rule; none
    /// where no rule applies. With `strict_only` the rules of which the term is a variant of the left side are passed over.
    ///
    /// Each position is visited once.
    pub fn first_redex(
        &self,
        alloc: Global,
        t: &Term,
        strict_only: bool,
    ) -> Result<Option<Redex>, Memory>
        requires few_rules { length self.now < 2 ^ 32 }
        requires few_arguments { HasFewArguments (tree_of t.now) }
        ensures { IfOk result (IsRedexAnswer self.now strict_only (tree_of t.now)) }
    {
        match self.first_below(alloc, t, strict_only, t)? {
            None => Ok(None),
            Some((mut steps, i)) => {
                steps.reverse();
                let position = Position::from_steps(alloc, &steps)?;
                let kind = found(alloc, t, &self.rules()[i])?;
                Ok(Some(Redex {
                    position,
                    rule: i as u32,
                    kind,
                }))
            }
        }
    }

    /// The first redex of the term, as the argument numbers that lead to it, from the last to the first, and the number of the
    /// rule.
    fn first_below(
        &self,
        alloc: Global,
        whole: &Term,
        strict_only: bool,
        t: &Term,
    ) -> Result<Option<(Vec<u8>, usize)>, Memory>
        requires { HasFewArguments (tree_of t.now) }
        ensures first { IfOk result (λ o. IfSome o (λ e. IsFirstAt (IsRootRedex self.now strict_only (tree_of whole.now)) (tree_of t.now) (reverse e.0.items) e.1)) }
        ensures none { result ≡ Ok None → HasNone (IsRootRedex self.now strict_only (tree_of whole.now)) (tree_of t.now) }
    {
        if let Some(i) = self.first_applying(alloc, whole, strict_only, t)? {
            return Ok(Some((Vec::new(alloc), i)));
        }
        match t {
            Term::Var(_) => Ok(None),
            Term::App(_, arguments) => {
                let items = arguments.items();
                for k in 0..items.len() {
                    match self.first_below(alloc, whole, strict_only, &items[k])? {
                        None => {}
                        Some((mut steps, i)) => {
                            steps.push((k + 1) as u8)?;
                            return Ok(Some((steps, i)));
                        }
                    }
                }
                Ok(None)
            }
        }
    }
}
