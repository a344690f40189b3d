// Which steps of a trace are right.
ghost use Rattle.std.specs.Prelude.{◌≡◌, ◌≤◌, ◌↔◌, Some, None, IfOk, IsTrue, MatchOption, option_map};
ghost use Rattle.kb_term.specs.Pair.{ArePairWithin, canonical_pair};
ghost use Rattle.kb_term.specs.Rule.{IsRule, IsRuleBelow, rule_of as rule_of_pair};
ghost use Rattle.kb_term.specs.View.{tree_of, equations_of_list};
ghost use Rattle.kb_overlap.specs.Trace.{item as item_of, IsRightInput, IsRightRewrite, IsRightOverlap, IsOriginOfForm, FollowsBy, IsRightOrigin};
ghost use Rattle.kb_overlap.specs.View.{sides_of};
ghost use Rattle.kb_trace.specs.Steps.{IsRewritten, IsOverlapped, IsPairWithin, IsCitedRule};

use crate::rule::is_rule;
use kb_match::match_term;
use kb_overlap::{Overlap, other_side_of, overlap_at, side_of};
use kb_term::{
    Memory, Origin, Pair, Position, Rule, RuleRef, Term, TermFault, apart, canonical, instance_of,
    pair_limit, replace, rule_of, subterm,
};
use std::alloc::Global;

/// Whether the origin is of the form, and the pair follows from the equations and the earlier pairs, which are cited by their
/// numbers from 1, in the way that it says.
pub(crate) fn is_right(
    alloc: Global,
    equations: &[(Term, Term)],
    earlier: &[Pair],
    origin: &Origin,
    pair: &Pair,
) -> Result<bool, Memory>
    requires { ArePairWithin pair.now.first pair.now.second }
    ensures { IfOk result (λ b. IsTrue b ↔ IsRightOrigin (equations_of_list equations.now) (item_of earlier.now) origin.now pair.now) }
{
    if !is_of_form(origin) {
        return Ok(false);
    }
    follows(alloc, equations, earlier, origin, pair)
}

/// Whether the sides and directions that the origin names are 0 or 1.
fn is_of_form(origin: &Origin) -> bool
    ensures { IsTrue result ↔ IsOriginOfForm origin.now }
{
    match origin {
        Origin::Input(_) => true,
        Origin::Rewrite { side, rule, .. } => *side <= 1 && rule.dir <= 1,
        Origin::Overlap { outer, inner, .. } => outer.dir <= 1 && inner.dir <= 1,
    }
}

/// Whether the pair follows from the equations and the earlier pairs in the way that the origin says.
fn follows(
    alloc: Global,
    equations: &[(Term, Term)],
    earlier: &[Pair],
    origin: &Origin,
    pair: &Pair,
) -> Result<bool, Memory>
    requires form { IsOriginOfForm origin.now }
    requires within { ArePairWithin pair.now.first pair.now.second }
    ensures { IfOk result (λ b. IsTrue b ↔ FollowsBy (equations_of_list equations.now) (item_of earlier.now) origin.now pair.now) }
{
    match origin {
        Origin::Input(i) => is_right_input(alloc, equations, *i, pair),
        Origin::Rewrite {
            node,
            side,
            position,
            rule,
        } => {
            let Some(old) = pair_at(earlier, *node) else {
                return Ok(false);
            };
            let Some(by) = cited_rule(alloc, earlier, *rule)? else {
                return Ok(false);
            };
            is_right_rewrite(alloc, old, *side, position, &by, pair)
        }
        Origin::Overlap {
            outer,
            inner,
            position,
        } => {
            let Some(one) = cited_rule(alloc, earlier, *outer)? else {
                return Ok(false);
            };
            let Some(other) = cited_rule(alloc, earlier, *inner)? else {
                return Ok(false);
            };
            is_right_overlap(alloc, &one, &other, position, pair)
        }
    }
}

/// The pair with a number, counted from 1; none where there is none.
fn pair_at(pairs: &[Pair], number: u16) -> Option<&Pair>
    ensures { option_map (λ pair. pair.now) result ≡ item_of pairs.now number }
{
    if number == 0 {
        return None;
    }
    pairs.get(number as usize - 1)
}

/// The equation with a number, counted from 1; none where there is none.
fn equation_at(equations: &[(Term, Term)], number: u16) -> Option<&(Term, Term)>
    ensures { option_map (λ e. (tree_of e.now.0, tree_of e.now.1)) result ≡ item_of (equations_of_list equations.now) number }
{
    if number == 0 {
        return None;
    }
    equations.get(number as usize - 1)
}

/// The rule that is cited; none where no pair has its number.
fn cited_rule(alloc: Global, pairs: &[Pair], cited: RuleRef) -> Result<Option<Rule>, Memory>
    requires { cited.dir ≤ 1 }
    ensures { IfOk result (IsCitedRule (item_of pairs.now cited.node) cited.dir) }
{
    match pair_at(pairs, cited.node) {
        None => Ok(None),
        Some(pair) => {
            let rule = rule_of(alloc, pair, cited.dir)?;
            Ok(Some(rule))
        }
    }
}

/// Whether the pair is the canonical pair of the two terms.
fn is_canonical_pair(alloc: Global, s: &Term, t: &Term, pair: &Pair) -> Result<bool, Memory>
    requires { ArePairWithin pair.now.first pair.now.second }
    ensures { IfOk result (λ b. IsTrue b ↔ (canonical_pair (tree_of s.now) (tree_of t.now) ≡ Some pair.now)) }
{
    if pair_limit(s, t).is_some() {
        return Ok(false);
    }
    match canonical(alloc, s, t)? {
        None => Ok(false),
        Some(found) => Ok(is_same(&found, pair)),
    }
}

/// Whether both are one pair.
fn is_same(a: &Pair, b: &Pair) -> bool
    ensures { IsTrue result ↔ (a.now ≡ b.now) }
{
    *a.first() == *b.first() && *a.second() == *b.second()
}

/// Whether the equation with the number is there and has the pair as its canonical pair.
fn is_right_input(
    alloc: Global,
    equations: &[(Term, Term)],
    number: u16,
    pair: &Pair,
) -> Result<bool, Memory>
    requires { ArePairWithin pair.now.first pair.now.second }
    ensures { IfOk result (λ b. IsTrue b ↔ IsRightInput (equations_of_list equations.now) number pair.now) }
{
    match equation_at(equations, number) {
        None => Ok(false),
        Some(e) => is_canonical_pair(alloc, &e.0, &e.1, pair),
    }
}

/// Whether the rule rewrites the side of the old pair at the position so that the pair is made.
fn is_right_rewrite(
    alloc: Global,
    old: &Pair,
    w: u8,
    position: &Position,
    rule: &Rule,
    pair: &Pair,
) -> Result<bool, Memory>
    requires { ArePairWithin pair.now.first pair.now.second }
    ensures { IfOk result (λ b. IsTrue b ↔ IsRightRewrite old.now w position.now rule.now pair.now) }
{
    if !is_rule(rule) {
        return Ok(false);
    }
    match rewritten(alloc, rule, position, side_of(old, w))? {
        None => Ok(false),
        Some(result) => is_canonical_pair(alloc, &result, other_side_of(old, w), pair),
    }
}

/// What the rule makes of the term at the position; none where it doesn't rewrite the term there, or where the result
/// passes a limit.
fn rewritten(
    alloc: Global,
    rule: &Rule,
    position: &Position,
    t: &Term,
) -> Result<Option<Term>, Memory>
    requires { IsRule rule.now }
    ensures { IfOk result (IsRewritten rule.now position.now (tree_of t.now)) }
{
    let Some(redex) = subterm(t, position) else {
        return Ok(None);
    };
    let Some(m) = match_term(alloc, rule.left(), redex)? else {
        return Ok(None);
    };
    let made = instance_of(alloc, &m, rule.right())?;
    match replace(alloc, t, position, &made) {
        Ok(result) => Ok(Some(result)),
        Err(TermFault::Large(_)) => Ok(None),
        Err(TermFault::Memory) => Err(Memory),
    }
}

/// Whether both are rules that overlap at the position so that the pair is made.
fn is_right_overlap(
    alloc: Global,
    outer: &Rule,
    inner: &Rule,
    position: &Position,
    pair: &Pair,
) -> Result<bool, Memory>
    requires outer_variables { IsRuleBelow 64 outer.now }
    requires inner_variables { IsRuleBelow 64 inner.now }
    requires within { ArePairWithin pair.now.first pair.now.second }
    ensures { IfOk result (λ b. IsTrue b ↔ IsRightOverlap outer.now inner.now position.now pair.now) }
{
    if !is_rule(outer) || !is_rule(inner) {
        return Ok(false);
    }
    match overlapped(alloc, outer, inner, position)? {
        None => Ok(false),
        Some((s, t)) => is_canonical_pair(alloc, &s, &t, pair),
    }
}

/// The critical pair of the rules at the position; none where they don't overlap there, or where the overlap passes a limit.
fn overlapped(
    alloc: Global,
    outer: &Rule,
    inner: &Rule,
    position: &Position,
) -> Result<Option<(Term, Term)>, Memory>
    requires outer_variables { IsRuleBelow 64 outer.now }
    requires inner_variables { IsRuleBelow 64 inner.now }
    ensures { IfOk result (IsOverlapped outer.now inner.now position.now) }
{
    match subterm(outer.left(), position) {
        None => Ok(None),
        Some(Term::Var(_)) => Ok(None),
        Some(Term::App(_, _)) => {
            let renamed = apart(alloc, inner)?;
            match overlap_at(alloc, outer, &renamed, position)? {
                None => Ok(None),
                Some(overlap) => Ok(sides_within(overlap)),
            }
        }
    }
}

/// The two terms of the overlap; none where it passes a limit.
fn sides_within(overlap: Overlap) -> Option<(Term, Term)>
    ensures { IsPairWithin (sides_of overlap.sides) result }
{
    let Overlap { position: _, sides } = overlap;
    match sides {
        Ok(pair) => Some(pair),
        Err(_) => None,
    }
}
