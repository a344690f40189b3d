// The overlaps of pairs of rules, group by group.
ghost use Rattle.std.specs.Prelude.{IfOk, ◌≡◌};
ghost use Rattle.kb_term.specs.View.{tree_of};
ghost use Rattle.mkb_model.specs.Proposals.{reason_of as reason_of_limit};
ghost use Rattle.kb_jobs.specs.Groups.{IsOverlappable, IsGroupOf, AddsPair, AreFew};

use kb_label::Reason;
use kb_node::Deduced;
use kb_overlap::{Overlap, overlaps};
use kb_term::{Limit, Memory, Rule, RuleRef, Term, canonical};
use std::alloc::Global;

/// The overlaps of one rule as outer with another as inner, in order, with the names of both.
#[derive(Drop)]
pub(crate) struct Group {
    pub(crate) outer: RuleRef,
    pub(crate) inner: RuleRef,
    pub(crate) overlaps: Vec<Overlap>,
}

/// The reason that a limit of terms is.
pub(crate) fn reason_of(limit: Limit) -> Reason
    ensures { result ≡ reason_of_limit limit }
{
    match limit {
        Limit::Size => Reason::Size,
        Limit::Depth => Reason::Depth,
        Limit::Variables => Reason::Variables,
    }
}

/// The overlaps of the first rule as outer with the second as inner.
pub(crate) fn group_of(
    alloc: Global,
    outer: RuleRef,
    outer_rule: &Rule,
    inner: RuleRef,
    inner_rule: &Rule,
) -> Result<Group, Memory>
    requires outer { IsOverlappable outer_rule.now }
    requires inner { IsOverlappable inner_rule.now }
    ensures { IfOk result (IsGroupOf outer outer_rule.now inner inner_rule.now) }
{
    let overlaps = overlaps(alloc, outer_rule, inner_rule, outer == inner)?;
    Ok(Group {
        outer,
        inner,
        overlaps,
    })
}

/// Puts the canonical pair of the overlap at the end of the list, where it is not trivial.
pub(crate) fn push_pair(
    alloc: Global,
    pairs: &mut Vec<Deduced>,
    g: &Group,
    overlap: &Overlap,
    first: &Term,
    second: &Term,
) -> Result<(), Memory>
    requires { AreFew (tree_of first.now) (tree_of second.now) }
    ensures { IfOk result (λ _. AddsPair g.now overlap.now (tree_of first.now) (tree_of second.now) pairs.old.items pairs.new.items) }
{
    match canonical(alloc, first, second)? {
        None => {}
        Some(pair) => pairs.push(Deduced {
            outer: g.outer,
            inner: g.inner,
            position: overlap.position.clone()?,
            pair,
        })?,
    }
    Ok(())
}
