// What a Close proposes.
ghost use Rattle.std.specs.Prelude.{IfOk, IsTrue, ◌↔◌, ◌≡◌, ◌<◌, length, Ok};
ghost use Rattle.kb_term.specs.View.{tree_of};
ghost use Rattle.mkb_model.specs.Proposals.{IsJoinedBy};
ghost use Rattle.kb_jobs.specs.Rules.{listed};
ghost use Rattle.kb_jobs.specs.Groups.{AreFew, named_overlap, overlaps_in, AreGroupsOf, IsGroup};
ghost use Rattle.kb_jobs.specs.Closing.{IsClosable, AreOverlappable, ProposesClose, equations_of, AreForms, IsSides, Settles, SettlesGroup, IsAllSettled, LimitsInputs, AddsRow, IsStoppedClose, all_pairs};

use crate::groups::{Group, group_of, push_pair, reason_of};
use crate::rules::NamedRules;
use kb_label::{Process, Reason};
use kb_node::{Deduced, Job, LimitCause};
use kb_overlap::Overlap;
use kb_rewrite::Normal;
use kb_term::{Memory, Pair, Rule, Term, canonical};
use mkb_model::{DeducedList, Proposed};
use std::alloc::Global;

/// What a Close reads: the process's rules and equations, and the input equations.
#[derive(Drop)]
pub struct CloseSnapshot {
    pub process: Process,
    pub rules: NamedRules,
    pub equations: Vec<Pair>,
    pub inputs: Vec<(Term, Term)>,
}

// The pairs of the overlaps so far that don't join, and whether there was any such overlap.
#[derive(Drop)]
struct Parting {
    pairs: Vec<Deduced>,
    any: bool,
}

// The normal forms of two terms, or the limit that normalising the first, or else the second, passes.
#[derive(Drop)]
enum Forms {
    Both(Term, Term),
    Stop(Reason),
}

/// Overlaps each rule with each, and normalises both sides of each overlap, the first side before the second.
///
/// The first overlap that passes a limit, or whose normalising does, gives that limit. Else the pairs before normalising of the
/// overlaps are given whose normal forms differ and are no equation. Else the process is closed; but without equations, both
/// sides of each input equation are normalised first, and the first limit passed is given.
pub fn close(alloc: Global, s: &CloseSnapshot) -> Result<Proposed, Memory>
    requires { IsClosable s.now }
    ensures { IfOk result (ProposesClose s.now) }
{
    let groups = all_ways(alloc, &s.rules)?;
    let mut seen = Parting {
        pairs: Vec::new(alloc),
        any: false,
    };
    for i in 0..groups.len() {
        if let Some(reason) = settle_group(alloc, s, &mut seen, &groups[i])? {
            return Ok(stopped(s, reason));
        }
    }
    conclude(alloc, s, seen)
}

fn stopped(s: &CloseSnapshot, reason: Reason) -> Proposed
    ensures { IsStoppedClose s.now reason result }
{
    Proposed::Limit {
        job: Job::Close(s.process),
        cause: LimitCause {
            redex: None,
            reason,
        },
    }
}

// What is proposed where no overlap passes a limit.
fn conclude(alloc: Global, s: &CloseSnapshot, seen: Parting) -> Result<Proposed, Memory>
    requires closable { IsClosable s.now }
    requires settled { IsAllSettled s.now seen }
    ensures { IfOk result (ProposesClose s.now) }
{
    if seen.any {
        return Ok(Proposed::Unjoined {
            process: s.process,
            pairs: DeducedList::new(seen.pairs),
        });
    }
    if s.equations.len() > 0 {
        return Ok(Proposed::Closed { process: s.process });
    }
    match input_limit(alloc, s)? {
        Some(reason) => Ok(stopped(s, reason)),
        None => Ok(Proposed::Closed { process: s.process }),
    }
}

// The first limit that normalising the sides of the input equations passes.
fn input_limit(alloc: Global, s: &CloseSnapshot) -> Result<Option<Reason>, Memory>
    requires { IsClosable s.now }
    ensures { IfOk result (LimitsInputs s.now) }
{
    for i in 0..s.inputs.len() {
        let input = &s.inputs[i];
        match normal_forms(alloc, &s.rules, &input.0, &input.1)? {
            Forms::Stop(reason) => return Ok(Some(reason)),
            Forms::Both(_, _) => {}
        }
    }
    Ok(None)
}

// The overlaps of each rule as outer with each as inner.
fn all_ways(alloc: Global, rules: &NamedRules) -> Result<Vec<Group>, Memory>
    requires { AreOverlappable rules.now }
    ensures { IfOk result (λ groups. AreGroupsOf (all_pairs rules.now) groups.items) }
{
    let mut groups = Vec::new(alloc);
    let count = rules.rules.as_slice().len();
    for i in 0..count {
        push_row(alloc, rules, &mut groups, i)?;
    }
    Ok(groups)
}

// Puts the overlaps of the rule with the number as outer with each as inner at the end of the list.
fn push_row(
    alloc: Global,
    rules: &NamedRules,
    groups: &mut Vec<Group>,
    i: usize,
) -> Result<(), Memory>
    requires rules { AreOverlappable rules.now }
    requires there { i < length rules.now.rules }
    ensures { IfOk result (λ _. AddsRow (listed rules.now) (listed rules.now) i groups.old.items groups.new.items) }
{
    let listed = rules.rules.as_slice();
    for j in 0..listed.len() {
        groups.push(group_of(
            alloc,
            rules.names[i],
            &listed[i],
            rules.names[j],
            &listed[j],
        )?)?;
    }
    Ok(())
}

// Settles the overlaps of a group: gives the limit that the first of them passes that passes one.
fn settle_group(
    alloc: Global,
    s: &CloseSnapshot,
    seen: &mut Parting,
    g: &Group,
) -> Result<Option<Reason>, Memory>
    requires closable { IsClosable s.now }
    requires group { IsGroup g.now }
    ensures { IfOk result (SettlesGroup s.now (overlaps_in g.now) seen.old seen.new) }
{
    for i in 0..g.overlaps.len() {
        if let Some(reason) = settle(alloc, s, seen, g, &g.overlaps[i])? {
            return Ok(Some(reason));
        }
    }
    Ok(None)
}

// Settles an overlap: the limit that it passes, or whether it joins.
fn settle(
    alloc: Global,
    s: &CloseSnapshot,
    seen: &mut Parting,
    g: &Group,
    overlap: &Overlap,
) -> Result<Option<Reason>, Memory>
    requires closable { IsClosable s.now }
    requires few { (u v : _) → IsSides overlap.now u v → AreFew u v }
    ensures { IfOk result (Settles s.now (named_overlap g.now overlap.now) seen.old seen.new) }
{
    match &overlap.sides {
        Err(limit) => Ok(Some(reason_of(*limit))),
        Ok((first, second)) => settle_sides(alloc, s, seen, g, overlap, first, second),
    }
}

fn settle_sides(
    alloc: Global,
    s: &CloseSnapshot,
    seen: &mut Parting,
    g: &Group,
    overlap: &Overlap,
    first: &Term,
    second: &Term,
) -> Result<Option<Reason>, Memory>
    requires closable { IsClosable s.now }
    requires sides { IsSides overlap.now (tree_of first.now) (tree_of second.now) }
    requires few { AreFew (tree_of first.now) (tree_of second.now) }
    ensures { IfOk result (Settles s.now (named_overlap g.now overlap.now) seen.old seen.new) }
{
    match normal_forms(alloc, &s.rules, first, second)? {
        Forms::Stop(reason) => Ok(Some(reason)),
        Forms::Both(u, v) => {
            let joined = is_joined(alloc, &s.equations, &u, &v)?;
            if joined {
                return Ok(None);
            }
            push_pair(alloc, &mut seen.pairs, g, overlap, first, second)?;
            seen.any = true;
            Ok(None)
        }
    }
}

// Whether the terms are equal, or their canonical pair is one of the equations.
fn is_joined(alloc: Global, equations: &[Pair], u: &Term, v: &Term) -> Result<bool, Memory>
    requires { AreFew (tree_of u.now) (tree_of v.now) }
    ensures { IfOk result (λ b. IsTrue b ↔ IsJoinedBy (equations_of equations.now) (tree_of u.now) (tree_of v.now)) }
{
    match canonical(alloc, u, v)? {
        None => Ok(true),
        Some(pair) => Ok(equations.contains(&pair)),
    }
}

// Normalises both terms, the first before the second.
fn normal_forms(
    alloc: Global,
    rules: &NamedRules,
    first: &Term,
    second: &Term,
) -> Result<Forms, Memory>
    requires { length rules.now.names.items ≡ length rules.now.rules }
    ensures { IfOk result (AreForms (listed rules.now) (tree_of first.now) (tree_of second.now)) }
{
    let system = rules.rules.system();
    match system.normal_form(alloc, first)? {
        Normal::Long(_) => Ok(Forms::Stop(Reason::Steps)),
        Normal::Large(limit) => Ok(Forms::Stop(reason_of(limit))),
        Normal::Form(u, _) => match system.normal_form(alloc, second)? {
            Normal::Long(_) => Ok(Forms::Stop(Reason::Steps)),
            Normal::Large(limit) => Ok(Forms::Stop(reason_of(limit))),
            Normal::Form(v, _) => Ok(Forms::Both(u, v)),
        },
    }
}
