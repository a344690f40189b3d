// Right sides that are normalised, with the steps that show it.
ghost use Rattle.std.specs.Prelude.{◌≡◌, ◌≢◌, ◌-◌, ◌<◌, ◌≤◌, ◌^◌, ℕ, Some, IfOk, length, slice_get};
ghost use Rattle.kb_term.specs.Pair.{canonical as canonical_of, variables_of_pair};
ghost use Rattle.kb_term.specs.Rule.{Rule as Rule_};
ghost use Rattle.kb_term.specs.View.{tree_of};
ghost use Rattle.kb_term.specs.declared.limit.Limit.TheVariants as limits;
ghost use Rattle.kb_term.specs.declared.origin.Origin.TheVariants as origins;
ghost use Rattle.kb_checker.specs.Answers.{IsAnswer, IsGoodAnswer, IsTraced, rules_of};
ghost use Rattle.kb_reduce.specs.Reducing.{direction_of};
ghost use Rattle.kb_reduce.specs.Telling.{IsLimitWhy};
ghost use Rattle.kb_reduce.specs.Running.{IsBehind, IsComposing};

use crate::reduction::Why;
use kb_checker::Answer;
use kb_rewrite::{MAX_STEPS, first_redex, step};
use kb_term::{
    Limit, MAX_NODES, Memory, Origin, Pair, Position, Rule, RuleRef, Term, TermFault, canonical,
};
use kb_trace::Step;
use std::alloc::Global;

/// What normalising the right side of a rule comes to.
#[derive(Drop)]
pub(crate) enum Composed {
    /// The rule with the normal form, and the step that it cites.
    Rule(Rule, u32),
    /// A limit is passed.
    Passed(Why),
}

/// The rule with the index k with its right side normalised by all rules: while it has a redex, it is rewritten at the first
/// position in preorder at which a rule applies, by the first such rule, and the step of this rewriting comes behind the others.
pub(crate) fn compose(
    alloc: Global,
    a: &Answer,
    alone: &[Rule],
    k: usize,
    steps: &mut Vec<Step>,
) -> Result<Composed, Memory>
    requires form { IsAnswer a.now }
    requires good { IsGoodAnswer a.now }
    requires alone { alone.now ≡ rules_of a.now.rules }
    requires there { k < length a.now.rules }
    requires behind { IsBehind a.now.trace steps.old.items }
    requires room { length steps.old.items ≤ MAX_NODES }
    ensures { IfOk result (λ c. (r : Rule_ × ℕ) → slice_get a.now.rules k ≡ Some r → IsComposing a.now.rules r steps.old.items steps.new.items c) }
{
    let given = &a.rules()[k];
    let mut rule = (given.0.clone()?, given.1);
    for _ in 0..MAX_STEPS {
        let Some(redex) = first_redex(alloc, alone, rule.0.right(), false)? else {
            return Ok(Composed::Rule(rule.0, rule.1));
        };
        match step(alloc, alone, rule.0.right(), &redex) {
            Ok(next) => {
                let by = &a.rules()[redex.rule as usize];
                let pair = pair_of(alloc, rule.0.left(), &next)?;
                let origin = origin_of(steps, &rule, redex.position, by);
                steps.push(Step::new(origin, pair))?;
                let left = rule.0.left().clone()?;
                rule = (Rule::new(left, next), steps.len() as u32);
            }
            Err(TermFault::Large(limit)) => return Ok(Composed::Passed(why_of(limit))),
            Err(TermFault::Memory) => return Err(Memory),
        }
    }
    match first_redex(alloc, alone, rule.0.right(), false)? {
        None => Ok(Composed::Rule(rule.0, rule.1)),
        Some(_) => Ok(Composed::Passed(Why::Steps)),
    }
}

/// The canonical pair of two different terms.
fn pair_of(alloc: Global, s: &Term, t: &Term) -> Result<Pair, Memory>
    requires few { length (variables_of_pair (tree_of s.now) (tree_of t.now)) ≤ 64 }
    requires different { tree_of s.now ≢ tree_of t.now }
    ensures { IfOk result (λ pair. pair ≡ canonical_of (tree_of s.now) (tree_of t.now)) }
{
    match canonical(alloc, s, t)? {
        Some(pair) => Ok(pair),
        None => unreachable!(),
    }
}

/// Where a pair comes from that the rule's right side gives, rewritten at the position by another rule.
fn origin_of(steps: &[Step], rule: &(Rule, u32), position: Position, by: &(Rule, u32)) -> Origin
    requires rule { IsTraced steps.now rule.now }
    requires by { IsTraced steps.now by.now }
    requires few { length steps.now < 2 ^ 16 }
    ensures { result ≡ origins.Rewrite rule.now.1 (1 - direction_of rule.now.0) position (record { node = by.now.1; dir = direction_of by.now.0 }) }
{
    Origin::Rewrite {
        node: rule.1 as u16,
        side: 1 - direction(steps, rule),
        position,
        rule: RuleRef {
            node: by.1 as u16,
            dir: direction(steps, by),
        },
    }
}

/// The direction in which the rule reads the pair of the step that it cites.
fn direction(steps: &[Step], rule: &(Rule, u32)) -> u8
    requires { IsTraced steps.now rule.now }
    ensures direction { result ≡ direction_of rule.now.0 }
    ensures bit { result ≤ 1 }
{
    let pair = steps[rule.1 as usize - 1].pair();
    if pair.has_sides(rule.0.left(), rule.0.right()) {
        0
    } else {
        1
    }
}

// The limit of one term that is passed.
fn why_of(limit: Limit) -> Why
    requires { limit ≢ limits.Variables }
    ensures { IsLimitWhy limit result }
{
    match limit {
        Limit::Size => Why::Size,
        Limit::Depth => Why::Depth,
        Limit::Variables => unreachable!(),
    }
}
