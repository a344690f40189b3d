// The line of each entry of a board.
ghost use Rattle.std.specs.Prelude.{◌≡◌, IfOk, Some, option_map};
ghost use Rattle.kb_term.specs.View.{tree_of};
ghost use Rattle.mkb_model.specs.Effects.{node_of};
ghost use Rattle.mkb_rules.specs.Parts.{plain_nodes};
ghost use Rattle.kb_journal.specs.EntryLines.{commit_line, line_of as line_of_entry, made_line, pair_with, take_line, IsEffectOn, IsEntryOn, IsKept, IsMadeOn, IsOnlyNode};

use crate::entry_line::EntryLine;
use kb_label::ListLabels;
use kb_node::{Job, NodeId, NodeTable};
use kb_overlap::other_side_of;
use kb_term::{Memory, Pair, Term, canonical};
use mkb_model::{Effect, Entry, Proposed};
use std::alloc::Global;

// The node of a pair that one node has.
fn number_of(nodes: &NodeTable<ListLabels>, pair: &Pair) -> Option<u16>
    requires { IsOnlyNode (plain_nodes nodes.now) pair.now (node_of (plain_nodes nodes.now) pair.now) }
    ensures { result ≡ Some (node_of (plain_nodes nodes.now) pair.now) }
{
    match nodes.find(pair) {
        None => None,
        Some(node) => Some(node.0),
    }
}

// The node of the pair that a rewritten node became; none where it is trivial.
fn target_of(
    alloc: Global,
    nodes: &NodeTable<ListLabels>,
    node: NodeId,
    side: u8,
    outcome: &Term,
) -> Result<Option<u16>, Memory>
    requires { IsKept (plain_nodes nodes.now) node.0 side (tree_of outcome.now) }
    ensures { IfOk result (λ target. target ≡ option_map (node_of (plain_nodes nodes.now)) (pair_with (plain_nodes nodes.now) node.0 side (tree_of outcome.now))) }
{
    let before = nodes.pair(node)?;
    match canonical(alloc, outcome, other_side_of(&before, side))? {
        None => Ok(None),
        Some(pair) => Ok(number_of(nodes, &pair)),
    }
}

// The line of a commit that had its effect.
fn made_line(
    alloc: Global,
    nodes: &NodeTable<ListLabels>,
    ticket: u64,
    proposal: &Proposed,
) -> Result<EntryLine, Memory>
    requires { IsMadeOn (plain_nodes nodes.now) proposal.now }
    ensures { IfOk result (λ line. line ≡ made_line (plain_nodes nodes.now) ticket proposal.now) }
{
    let line = match proposal {
        Proposed::Facts(facts) => EntryLine::Facts {
            ticket,
            count: facts.items().len() as u64,
        },
        Proposed::Rewrite {
            node,
            side,
            result,
            ..
        } => EntryLine::Rewrite {
            ticket,
            node: target_of(alloc, nodes, *node, *side, result)?,
        },
        Proposed::One { dir, .. } => EntryLine::Oriented {
            ticket,
            direction: *dir,
        },
        Proposed::Both { .. } => EntryLine::Fork { ticket },
        Proposed::Refuse { .. } => EntryLine::Refused { ticket },
        Proposed::Deduce { pairs, .. } => EntryLine::Deduced {
            ticket,
            count: pairs.items().len() as u64,
        },
        Proposed::Unjoined { pairs, .. } => EntryLine::Unjoined {
            ticket,
            count: pairs.items().len() as u64,
        },
        Proposed::Closed { .. } => EntryLine::Closed { ticket },
        Proposed::Limit { cause, .. } => EntryLine::Over {
            ticket,
            reason: cause.reason,
        },
    };
    Ok(line)
}

// The line of a take.
fn take_line(worker: u8, ticket: u64, job: &Job) -> EntryLine
    ensures { result ≡ take_line worker ticket job.now }
{
    match job {
        Job::Reduce(process, node) => EntryLine::TakeReduce {
            worker,
            ticket,
            process: *process,
            node: node.0,
        },
        Job::Orient(process, node) => EntryLine::TakeOrient {
            worker,
            ticket,
            process: *process,
            node: node.0,
        },
        Job::Overlap(process, a, b) => EntryLine::TakeOverlap {
            worker,
            ticket,
            process: *process,
            a: *a,
            b: *b,
        },
        Job::Close(process) => EntryLine::TakeClose {
            worker,
            ticket,
            process: *process,
        },
    }
}

/// The line of an entry of a board that has these nodes.
///
/// # Errors
///
/// Want of memory.
pub(crate) fn line_of(
    alloc: Global,
    nodes: &NodeTable<ListLabels>,
    entry: &Entry,
) -> Result<EntryLine, Memory>
    requires { IsEntryOn (plain_nodes nodes.now) entry.now }
    ensures { IfOk result (λ line. line ≡ line_of_entry (plain_nodes nodes.now) entry.now) }
{
    match entry {
        Entry::Take {
            worker,
            ticket,
            job,
        } => Ok(take_line(*worker, *ticket, job)),
        Entry::Commit {
            ticket,
            effect: Effect::Over(reason),
            ..
        } => Ok(EntryLine::Over {
            ticket: *ticket,
            reason: *reason,
        }),
        Entry::Commit {
            ticket,
            effect: Effect::Made(proposal),
            ..
        } => { made_line(alloc, nodes, *ticket, proposal) }
        Entry::Drop {
            ticket,
            process,
            ..
        } => Ok(EntryLine::Drop {
            ticket: *ticket,
            process: *process,
        }),
        Entry::Abandon { ticket, .. } => Ok(EntryLine::Abandon { ticket: *ticket }),
        Entry::Halt => Ok(EntryLine::Halt),
    }
}
