// What a Reduce proposes.
ghost use Rattle.std.specs.Prelude.{◌≡◌, ◌≤◌, ◌<◌, ◌^◌, ℕ, List, All, IfOk, length, slice_get, Some, map, not};
ghost use Rattle.kb_term.specs.FewArguments.{HasFewArguments};
ghost use Rattle.kb_term.specs.Rule.{Rule as Rewriting};
ghost use Rattle.kb_term.specs.View.{tree_of};
ghost use Rattle.kb_overlap.specs.Trace.{side};
ghost use Rattle.kb_rewrite.specs.NormalForm.{HasNoRedex, IsFound};
ghost use Rattle.kb_rewrite.specs.Search.{IsRedexAnswer};
ghost use Rattle.kb_jobs.specs.Reducing.{is_any, IsReducible, IsFactAt, AreFactsAt, ProposesReduce};

use crate::groups::reason_of;
use crate::rules::{NamedRules, SharedPair};
use kb_label::Process;
use kb_node::{Fact, Job, LimitCause, NodeId};
use kb_rewrite::{Redex, step};
use kb_term::{Found, Memory, Rule, Term, TermFault, is_variant};
use mkb_model::{FactList, Proposed};
use std::alloc::Global;

/// What a Reduce reads: the pair of its node, the process's rules in other nodes, on which sides any redex may be rewritten
/// and not strict ones alone, and the sides and numbers of rules of which nothing is known, in order.
#[derive(Drop)]
pub struct ReduceSnapshot {
    pub process: Process,
    pub node: NodeId,
    pub pair: SharedPair,
    pub rules: NamedRules,
    pub any_first: bool,
    pub any_second: bool,
    pub unknown: Vec<(u8, u32)>,
}

/// Rewrites the node at its first redex that may be rewritten: side 0 before side 1, then positions in preorder, then rules in
/// their order. Where there is none, tells what each rule of which nothing was known can do to its side.
pub fn reduce(alloc: Global, s: &ReduceSnapshot) -> Result<Proposed, Memory>
    requires { IsReducible s.now }
    ensures { IfOk result (ProposesReduce s.now) }
{
    let pair = s.pair.as_pair();
    let system = s.rules.rules.system();
    if let Some(redex) = system.first_redex(alloc, pair.first(), !s.any_first)? {
        return rewrite(alloc, s, 0, pair.first(), redex);
    }
    if let Some(redex) = system.first_redex(alloc, pair.second(), !s.any_second)? {
        return rewrite(alloc, s, 1, pair.second(), redex);
    }
    let facts = facts(alloc, s)?;
    Ok(Proposed::Facts(FactList::new(facts)))
}

// The side rewritten at its first redex, or the limit that the result passes.
fn rewrite(
    alloc: Global,
    s: &ReduceSnapshot,
    w: u8,
    t: &Term,
    redex: Redex,
) -> Result<Proposed, Memory>
    requires reducible { IsReducible s.now }
    requires side { w ≤ 1 }
    requires term { tree_of t.now ≡ side s.now.pair w }
    requires first { IsRedexAnswer s.now.rules.rules (not (is_any s.now w)) (side s.now.pair w) (Some redex) }
    requires before { w ≡ 1 → HasNoRedex s.now.rules.rules (not (is_any s.now 0)) (side s.now.pair 0) }
    ensures { IfOk result (ProposesReduce s.now) }
{
    let rule = s.rules.names[redex.rule as usize];
    let stepped = step(alloc, s.rules.rules.as_slice(), t, &redex);
    let Redex {
        position,
        rule: _,
        kind,
    } = redex;
    match stepped {
        Ok(result) => Ok(Proposed::Rewrite {
            node: s.node,
            side: w,
            position,
            rule,
            kind,
            result,
        }),
        Err(fault) => match fault {
            TermFault::Memory => Err(Memory),
            TermFault::Large(limit) => Ok(Proposed::Limit {
                job: Job::Reduce(s.process, s.node),
                cause: LimitCause {
                    redex: Some((w, rule, kind)),
                    reason: reason_of(limit),
                },
            }),
        },
    }
}

// What each rule of which nothing was known can do to its side, where no redex of either side may be rewritten.
fn facts(alloc: Global, s: &ReduceSnapshot) -> Result<Vec<Fact>, Memory>
    requires reducible { IsReducible s.now }
    requires first { HasNoRedex s.now.rules.rules (not (is_any s.now 0)) (side s.now.pair 0) }
    requires second { HasNoRedex s.now.rules.rules (not (is_any s.now 1)) (side s.now.pair 1) }
    ensures { IfOk result (λ facts. AreFactsAt s.now s.now.unknown.items facts.items) }
{
    let mut facts = Vec::new(alloc);
    for i in 0..s.unknown.len() {
        let (side, number) = s.unknown[i];
        facts.push(fact(s, side, number))?;
    }
    Ok(facts)
}

// What the rule with the number can do to the side, where no redex of either side may be rewritten.
fn fact(s: &ReduceSnapshot, w: u8, number: u32) -> Fact
    requires reducible { IsReducible s.now }
    requires there { number < length s.now.rules.rules }
    requires first { HasNoRedex s.now.rules.rules (not (is_any s.now 0)) (side s.now.pair 0) }
    requires second { HasNoRedex s.now.rules.rules (not (is_any s.now 1)) (side s.now.pair 1) }
    ensures { IsFactAt s.now (w, number) result }
{
    let found = left_on(s, w, &s.rules.rules.as_slice()[number as usize]);
    Fact {
        node: s.node,
        side: w,
        rule: s.rules.names[number as usize],
        found,
    }
}

// What one of the rules can do to the side, where no redex of either side may be rewritten.
fn left_on(s: &ReduceSnapshot, w: u8, rule: &Rule) -> Found
    requires first { HasNoRedex s.now.rules.rules (not (is_any s.now 0)) (side s.now.pair 0) }
    requires second { HasNoRedex s.now.rules.rules (not (is_any s.now 1)) (side s.now.pair 1) }
    ensures { (i : ℕ) → slice_get s.now.rules.rules i ≡ Some rule.now → IsFound (side s.now.pair w) rule.now result }
{
    let pair = s.pair.as_pair();
    if w == 0 {
        left_for(rule, pair.first(), s.any_first)
    } else {
        left_for(rule, pair.second(), s.any_second)
    }
}

// What a rule can do to the term where no redex of it may be rewritten: the term may be a variant of the left side where only strict
// redexes may be, and else there is none.
fn left_for(rule: &Rule, t: &Term, is_any: bool) -> Found
    ensures { (rules : List Rewriting) (i : ℕ) → slice_get rules i ≡ Some rule.now → HasNoRedex rules (not is_any) (tree_of t.now) → IsFound (tree_of t.now) rule.now result }
{
    if !is_any && is_variant(t, rule.left()) {
        Found::Variant
    } else {
        Found::No
    }
}
