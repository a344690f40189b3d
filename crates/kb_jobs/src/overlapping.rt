// What an Overlap proposes.
ghost use Rattle.std.specs.Prelude.{IfOk};
ghost use Rattle.mkb_model.specs.Proposals.{both_ways as pairs_both_ways};
ghost use Rattle.kb_jobs.specs.Groups.{IsGroup, AreGroupsOf, DeducesGroup, overlaps_in};
ghost use Rattle.kb_jobs.specs.Overlapping.{first_of, second_of, IsOverlapping, ProposesOverlap};

use crate::groups::{Group, group_of, push_pair, reason_of};
use kb_label::{Process, Reason};
use kb_node::{Deduced, Job, LimitCause};
use kb_term::{Memory, Rule, RuleRef};
use mkb_model::{DeducedList, Proposed};
use std::alloc::Global;

/// What an Overlap reads: two rules with their names.
#[derive(Drop)]
pub struct OverlapSnapshot {
    pub process: Process,
    pub first: RuleRef,
    pub first_rule: Rule,
    pub second: RuleRef,
    pub second_rule: Rule,
}

/// Overlaps the first rule as outer with the second as inner, then the second with the first where they differ, and gives the
/// canonical pairs that are not trivial in that order, or the limit that the first overlap passes that passes one.
pub fn overlap(alloc: Global, s: &OverlapSnapshot) -> Result<Proposed, Memory>
    requires { IsOverlapping s.now }
    ensures { IfOk result (ProposesOverlap s.now) }
{
    let groups = both_ways(alloc, s)?;
    let mut pairs = Vec::new(alloc);
    for i in 0..groups.len() {
        if let Some(reason) = push_pairs(alloc, &mut pairs, &groups[i])? {
            return Ok(Proposed::Limit {
                job: Job::Overlap(s.process, s.first, s.second),
                cause: LimitCause {
                    redex: None,
                    reason,
                },
            });
        }
    }
    Ok(Proposed::Deduce {
        a: s.first,
        b: s.second,
        pairs: DeducedList::new(pairs),
    })
}

// The overlaps of the first rule with the second, and of the second with the first where they differ.
fn both_ways(alloc: Global, s: &OverlapSnapshot) -> Result<Vec<Group>, Memory>
    requires { IsOverlapping s.now }
    ensures { IfOk result (λ groups. AreGroupsOf (pairs_both_ways (first_of s.now) (second_of s.now)) groups.items) }
{
    let mut groups = Vec::new(alloc);
    groups.push(group_of(alloc, s.first, &s.first_rule, s.second, &s.second_rule)?)?;
    if s.first == s.second {
        return Ok(groups);
    }
    groups.push(group_of(alloc, s.second, &s.second_rule, s.first, &s.first_rule)?)?;
    Ok(groups)
}

// Puts the pairs of the overlaps of a group at the end of the list, or gives the limit that the first of them passes that
// passes one.
fn push_pairs(alloc: Global, pairs: &mut Vec<Deduced>, g: &Group) -> Result<Option<Reason>, Memory>
    requires { IsGroup g.now }
    ensures { IfOk result (DeducesGroup (overlaps_in g.now) pairs.old.items pairs.new.items) }
{
    for i in 0..g.overlaps.len() {
        let overlap = &g.overlaps[i];
        match &overlap.sides {
            Err(limit) => return Ok(Some(reason_of(*limit))),
            Ok((first, second)) => push_pair(alloc, pairs, g, overlap, first, second)?,
        }
    }
    Ok(None)
}
