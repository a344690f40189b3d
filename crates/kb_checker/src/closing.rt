// Whether the overlaps of rules close.
ghost use Rattle.std.specs.Prelude.{◌≡◌, ◌+◌, ◌*◌, ◌≤◌, ◌<◌, All, IfOk, MatchOption, length, map};
ghost use Rattle.kb_overlap.specs.View.{overlap_of};
ghost use Rattle.kb_laws.specs.Overlaps.{OverlapsClose};
ghost use Rattle.kb_checker.specs.Answers.{IsReady};
ghost use Rattle.kb_checker.specs.Partners.{HoldsLeftSides};
ghost use Rattle.kb_checker.specs.Verdicts.{FailsFirst, Closes, FailsToClose, IsRowAnswer, FirstUnclosed};

use crate::joining::{Failure, join_failure};
use crate::pairing::{left_sides, partners};
use kb_overlap::{Overlap, overlaps};
use kb_rewrite::System;
use kb_term::{MAX_NODES, Memory};
use rule_index::RuleIndex;
use std::alloc::Global;

/// What a look at the overlaps of one outer rule says.
pub(crate) enum Row {
    /// All close; so many overlaps there are with the earlier outer rules' ones.
    Closed(u64),
    /// Why the first that doesn't close does not, and its number among all, from 1.
    Open(Failure, u64),
}

/// The first overlap of the rules that doesn't close: why, and its number from 1. None where all close.
pub(crate) fn first_unclosed(
    alloc: Global,
    system: &System<'_>,
) -> Result<Option<(Failure, u64)>, Memory>
    requires ready { All IsReady system.now }
    requires few { length system.now ≤ MAX_NODES }
    ensures { IfOk result (λ o. MatchOption o (OverlapsClose system.now) (λ f. FirstUnclosed system.now f.0 f.1)) }
{
    let index = left_sides(alloc, system.rules())?;
    let mut count = 0;
    for i in 0..system.rules().len() {
        match close_row(alloc, system, &index, i, count)? {
            Row::Closed(more) => count = more,
            Row::Open(failure, n) => return Ok(Some((failure, n))),
        }
    }
    Ok(None)
}

/// Whether the overlaps of the outer rule with each rule close, where the earlier outer rules have so many overlaps. Rules
/// that the index doesn't find have none with it.
fn close_row(
    alloc: Global,
    system: &System<'_>,
    index: &RuleIndex,
    i: usize,
    start: u64,
) -> Result<Row, Memory>
    requires index { HoldsLeftSides (length system.now) system.now index.now }
    requires ready { All IsReady system.now }
    requires few { length system.now ≤ MAX_NODES }
    requires there { i < length system.now }
    requires room { start ≤ 2097152 * i }
    ensures { IfOk result (IsRowAnswer system.now i start) }
{
    let rules = system.rules();
    let outer = &rules[i];
    let keys = partners(alloc, index, outer)?;
    let mut count = start;
    for k in 0..keys.len() {
        let j = keys[k] as usize;
        let found = overlaps(alloc, outer, &rules[j], i == j)?;
        match first_open(alloc, system, &found)? {
            None => count += found.len() as u64,
            Some((failure, n)) => return Ok(Row::Open(failure, count + n)),
        }
    }
    Ok(Row::Closed(count))
}

/// The first of the overlaps that doesn't close: why, and its number from 1.
fn first_open(
    alloc: Global,
    system: &System<'_>,
    found: &[Overlap],
) -> Result<Option<(Failure, u64)>, Memory>
    ensures { IfOk result (λ o. MatchOption o (All (Closes system.now) (map overlap_of found.now)) (λ f. FailsFirst (Closes system.now) (FailsToClose system.now f.0) (map overlap_of found.now) f.1)) }
{
    for k in 0..found.len() {
        match close_failure(alloc, system, &found[k])? {
            None => {}
            Some(failure) => return Ok(Some((failure, (k + 1) as u64))),
        }
    }
    Ok(None)
}

/// Why the overlap doesn't close; none where it does.
fn close_failure(
    alloc: Global,
    system: &System<'_>,
    overlap: &Overlap,
) -> Result<Option<Failure>, Memory>
    ensures { IfOk result (λ o. MatchOption o (Closes system.now (overlap_of overlap.now)) (λ f. FailsToClose system.now f (overlap_of overlap.now))) }
{
    match &overlap.sides {
        Err(_) => Ok(Some(Failure::Large)),
        Ok((s, t)) => join_failure(alloc, system, s, t),
    }
}
