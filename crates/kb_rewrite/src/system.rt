// Rules to rewrite with.
ghost use Rattle.std.specs.Prelude.{◌≡◌, ◌<◌, ◌^◌, ◌↔◌, IfOk, IsTrue, length};
ghost use Rattle.kb_term.specs.View.{tree_of};
ghost use Rattle.kb_rewrite.specs.Search.{Applies, IsFirstRule, IsRootRedex};
ghost use Rattle.kb_rewrite.specs.Indexed.{IsNumbered, IsRepeated};

use crate::fingerprint::{Fingerprint, may_fit, top_of};
use crate::roots::Roots;
use crate::rule_list::RuleList;
use kb_match::matches;
use kb_term::{Memory, Rule, Term, is_variant};
use rule_index::RuleIndex;
use std::alloc::Global;
use std::marker::Model;

/// How the rules that may apply to a term are found.
#[derive(Drop)]
pub(crate) enum Lookup<'a> {
    /// Each rule is tried whose fingerprint admits the term's, and each that has none in the list.
    Scan(&'a [Fingerprint]),
    /// Those are tried whose left sides fit the term. A rule whose left side is an earlier rule's, and which is never the
    /// first to apply, isn't in the index.
    Index(RuleIndex),
}

/// Rules in their order, and how the first of them that applies to a term is found.
///
/// Both ways find the same rule. A scan goes over all rules at each position and needs little preparation; where the rules are a
/// [`RuleList`] it tries those alone whose left sides may fit by their tops. The index is built once, and then a position costs
/// what the term and the rules that fit it cost, so it is the one for systems of many rules. Either way no rule is tried at a
/// position where the roots of the left sides say that none can match.
#[derive(Drop)]
pub struct System<'a> {
    rules: &'a [Rule],
    lookup: Lookup<'a>,
    roots: Roots,
}

impl<'a> Model for System<'a> {
    ghost use Rattle.std.specs.Prelude.{List};
    ghost use Rattle.std.specs.Coded.{coded_list};
    ghost use Rattle.kb_term.specs.Coding.{coded_rule};
    ghost use Rattle.kb_term.specs.Rule.{Rule};
    ghost use Rattle.kb_rewrite.specs.Indexed.{IsPrepared};

    ghost Value = { List Rule };

    ghost coded = { coded_list coded_rule };

    ghost view = { λ s. s.rules.now };

    ghost invariant = { λ s. IsPrepared s.rules.now s.lookup s.roots };
}

impl<'a> System<'a> {
    /// The rules, each of which is tried.
    pub fn scanning(rules: &'a [Rule]) -> System<'a>
        ensures { result ≡ rules.now }
    {
        System {
            rules,
            lookup: Lookup::Scan(&[]),
            roots: Roots::of(rules),
        }
    }

    /// The rules of the list, of which those are tried whose left sides may fit by their tops.
    pub fn listed(list: &'a RuleList) -> System<'a>
        ensures { result ≡ list.now }
    {
        System {
            rules: list.as_slice(),
            lookup: Lookup::Scan(list.prints()),
            roots: list.roots(),
        }
    }

    /// The rules with an index of their left sides.
    ///
    /// # Errors
    ///
    /// Want of memory for the index.
    pub fn indexed(alloc: Global, rules: &'a [Rule]) -> Result<System<'a>, Memory>
        requires { length rules.now < 2 ^ 32 }
        ensures { IfOk result (λ s. s ≡ rules.now) }
    {
        let mut index = RuleIndex::new(alloc);
        for i in 0..rules.len() {
            let rule = &rules[i];
            if !is_repeated(rules, &index, rule.left())? {
                index.add(i as u32, rule)?;
            }
        }
        Ok(System {
            rules,
            lookup: Lookup::Index(index),
            roots: Roots::of(rules),
        })
    }

    /// The rules.
    pub fn rules(&self) -> &[Rule]
        ensures { result.now ≡ self.now }
    {
        self.rules
    }

    /// The number of the first rule that matches the term and isn't passed over for the whole term; none where there is none.
    pub(crate) fn first_applying(
        &self,
        alloc: Global,
        whole: &Term,
        strict_only: bool,
        t: &Term,
    ) -> Result<Option<usize>, Memory>
        ensures { IfOk result (IsFirstRule (IsRootRedex self.now strict_only (tree_of whole.now) (tree_of t.now))) }
    {
        if !self.roots.may_match(t) {
            return Ok(None);
        }
        match &self.lookup {
            Lookup::Scan(prints) => {
                let top = top_of(t);
                for i in 0..self.rules.len() {
                    if may_fit(prints, i, top)
                        && applies(alloc, &self.rules[i], whole, strict_only, t)?
                    {
                        return Ok(Some(i));
                    }
                }
            }
            Lookup::Index(index) => {
                let keys = index.candidates(t)?;
                for k in 0..keys.len() {
                    let i = keys[k] as usize;
                    if applies(alloc, &self.rules[i], whole, strict_only, t)? {
                        return Ok(Some(i));
                    }
                }
            }
        }
        Ok(None)
    }
}

/// Whether a rule in the index has the left side.
fn is_repeated(rules: &[Rule], index: &RuleIndex, left: &Term) -> Result<bool, Memory>
    requires { IsNumbered rules.now index.now }
    ensures { IfOk result (λ b. IsTrue b ↔ IsRepeated rules.now index.now (tree_of left.now)) }
{
    let keys = index.candidates(left)?;
    for k in 0..keys.len() {
        if *rules[keys[k] as usize].left() == *left {
            return Ok(true);
        }
    }
    Ok(false)
}

/// Whether the rule's left side matches the term, and the rule isn't passed over for the whole term.
fn applies(
    alloc: Global,
    rule: &Rule,
    whole: &Term,
    strict_only: bool,
    t: &Term,
) -> Result<bool, Memory>
    ensures { IfOk result (λ b. IsTrue b ↔ Applies rule.now strict_only (tree_of whole.now) (tree_of t.now)) }
{
    if !matches(alloc, rule.left(), t)? {
        return Ok(false);
    }
    Ok(!strict_only || !is_variant(whole, rule.left()))
}
