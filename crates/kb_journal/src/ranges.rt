// Whether the numbers of a line are within their ranges.
ghost use Rattle.std.specs.Prelude.{◌↔◌, ◌<◌, ◌^◌, IsTrue};
ghost use Rattle.kb_journal.specs.EntryLines.{IsEntryLine, IsNode, IsProcess, IsRule, IsTarget, IsTicketNumber, IsWorker};

use crate::entry_line::EntryLine;
use kb_label::{MAX_BITS, Process};
use kb_term::{MAX_NODES, RuleRef};

/// The greatest number of a worker.
const WORKERS: u8 = 16;

/// The most nodes.
const NODES: u16 = MAX_NODES as u16;

fn is_worker(worker: u8) -> bool
    ensures { IsTrue result ↔ IsWorker worker }
{
    1 <= worker && worker <= WORKERS
}

fn is_ticket(ticket: u64) -> bool
    ensures { IsTrue result ↔ IsTicketNumber ticket }
{
    1 <= ticket
}

// Each number of a count is.
fn is_count(count: u64) -> bool
    ensures { IsTrue result ↔ (count < 2 ^ 64) }
{
    count <= u64::MAX
}

fn is_node(node: u16) -> bool
    ensures { IsTrue result ↔ IsNode node }
{
    node < NODES
}

fn is_process(process: &Process) -> bool
    ensures { IsTrue result ↔ IsProcess process.now }
{
    process.len() <= MAX_BITS
}

fn is_rule(rule: RuleRef) -> bool
    ensures { IsTrue result ↔ IsRule rule }
{
    is_node(rule.node) && rule.dir <= 1
}

fn is_target(node: Option<u16>) -> bool
    ensures { IsTrue result ↔ IsTarget node }
{
    match node {
        None => true,
        Some(n) => is_node(n),
    }
}

/// Whether the numbers and the process of a line are within their ranges.
pub(crate) fn is_within(line: &EntryLine) -> bool
    ensures { IsTrue result ↔ IsEntryLine line.now }
{
    match line {
        EntryLine::TakeReduce {
            worker,
            ticket,
            process,
            node,
        }
        | EntryLine::TakeOrient {
            worker,
            ticket,
            process,
            node,
        } => { is_worker(*worker) && is_ticket(*ticket) && is_process(process) && is_node(*node) }
        EntryLine::TakeOverlap {
            worker,
            ticket,
            process,
            a,
            b,
        } => {
            is_worker(*worker)
                && is_ticket(*ticket)
                && is_process(process)
                && is_rule(*a)
                && is_rule(*b)
        }
        EntryLine::TakeClose {
            worker,
            ticket,
            process,
        } => { is_worker(*worker) && is_ticket(*ticket) && is_process(process) }
        EntryLine::Rewrite { ticket, node } => is_ticket(*ticket) && is_target(*node),
        EntryLine::Oriented { ticket, direction } => is_ticket(*ticket) && *direction <= 1,
        EntryLine::Drop { ticket, process } => is_ticket(*ticket) && is_process(process),
        EntryLine::Facts { ticket, count }
        | EntryLine::Deduced { ticket, count }
        | EntryLine::Unjoined { ticket, count } => is_ticket(*ticket) && is_count(*count),
        EntryLine::Fork { ticket }
        | EntryLine::Refused { ticket }
        | EntryLine::Closed { ticket }
        | EntryLine::Over { ticket, .. }
        | EntryLine::Abandon { ticket } => is_ticket(*ticket),
        EntryLine::Halt => true,
    }
}
