// The lines of a journal's entries.
use kb_label::{Process, Reason};
use kb_term::RuleRef;

/// A line of a journal's text: what it keeps of an entry. A replay computes the rest again: positions, results, certificates,
/// facts and pairs, and the workers of commits, drops and abandons.
///
/// In the text of a journal a worker is 1 to 16, a ticket from 1 on, a node 0 to 4,095 and a direction 0 or 1.
#[derive(Clone, Copy, Debug, PartialEq, Eq)]
pub enum EntryLine {
    /// A worker took the job to rewrite a node by the rules of a process.
    TakeReduce {
        worker: u8,
        ticket: u64,
        process: Process,
        node: u16,
    },
    /// A worker took the job to make an equation of a process a rule.
    TakeOrient {
        worker: u8,
        ticket: u64,
        process: Process,
        node: u16,
    },
    /// A worker took the job to overlap two rules of a process.
    TakeOverlap {
        worker: u8,
        ticket: u64,
        process: Process,
        a: RuleRef,
        b: RuleRef,
    },
    /// A worker took the job to see whether a process is complete.
    TakeClose {
        worker: u8,
        ticket: u64,
        process: Process,
    },
    /// So many facts became known.
    Facts {
        ticket: u64,
        count: u64,
    },
    /// A node was rewritten; the node of the new pair, none where the pair is trivial.
    Rewrite {
        ticket: u64,
        node: Option<u16>,
    },
    /// An equation became a rule in this direction.
    Oriented {
        ticket: u64,
        direction: u8,
    },
    /// A process forked.
    Fork {
        ticket: u64,
    },
    /// An equation was found not to become a rule.
    Refused {
        ticket: u64,
    },
    /// Two rules were overlapped, with so many pairs that are not trivial.
    Deduced {
        ticket: u64,
        count: u64,
    },
    /// So many overlaps of a process didn't join.
    Unjoined {
        ticket: u64,
        count: u64,
    },
    /// All overlaps of a process join.
    Closed {
        ticket: u64,
    },
    /// Processes gave up for this reason.
    Over {
        ticket: u64,
        reason: Reason,
    },
    /// The ticket, taken for this process, ended with nothing left to act on.
    Drop {
        ticket: u64,
        process: Process,
    },
    /// A worker gave the ticket back.
    Abandon {
        ticket: u64,
    },
    /// No job is taken from here on.
    Halt,
}
