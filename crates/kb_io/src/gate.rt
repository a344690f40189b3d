// What a worker asks before its work.
ghost use Rattle.std.specs.Prelude.{◌≡◌, ◌≢◌, true, false};

use std::hint::spin_loop;
use std::sync::atomic::Ordering::SeqCst;
use std::sync::atomic::{AtomicBool, AtomicU32};

/// How a board stands as a ticket is taken.
#[derive(Clone, Copy, Debug, PartialEq, Eq)]
pub struct Moment {
    /// The number of the ticket.
    pub ticket: u64,
    /// How many commits were made.
    pub commits: u32,
    /// How many nodes there are.
    pub nodes: u32,
    /// How many processes live.
    pub living: u32,
    /// How many of them aren't asleep.
    pub awake: u32,
    /// What the ticket's process costs, where the gate wanted to know it.
    pub cost: Option<u32>,
}

/// What a worker asks between taking a ticket and working it: may it go on? It carries no promise.
pub trait Gate: Sync {
    /// Whether it wants to know what the process of the next ticket costs. Asked as a ticket is taken.
    fn wants_cost(&self) -> bool;

    /// Asked with the moment at which the ticket was taken, and with 0, 1, .. for each time that it is asked for this ticket.
    fn pass(&self, moment: &Moment, turn: u32) -> bool;
}

/// The gate that always lets pass.
#[derive(Drop)]
pub struct OpenGate;

impl Gate for OpenGate {
    fn wants_cost(&self) -> bool
        ensures spares { result ≡ false }
    {
        false
    }

    fn pass(&self, _moment: &Moment, _turn: u32) -> bool
        ensures passes { result ≡ true }
    {
        true
    }
}

/// How often a held call looks for the other ticket's flag at most.
const LOOKS: u32 = 100_000_000;

/// A gate that lets every call pass, but keeps the first call for each of two tickets waiting, for a
/// bounded number of looks, until the first call for the other one is made. It is for tests that two
/// workers are between their takes and their works at one time.
#[derive(Drop)]
pub struct HoldGate {
    first: Flag,
    second: Flag,
}

// One of the two tickets: whether its first call was made, and whether that call saw the other's flag.
#[derive(Drop)]
struct Flag {
    ticket: u64,
    raised: AtomicBool,
    saw: AtomicBool,
}

impl Flag {
    fn new(ticket: u64) -> Flag {
        Flag {
            ticket,
            raised: AtomicBool::new(false),
            saw: AtomicBool::new(false),
        }
    }

    // Raises this flag, and looks for the other one. A flag that is up already is not held again.
    fn hold(&self, other: &Flag) {
        if self.raised.swap(true, SeqCst) {
            return;
        }
        for _ in 0..LOOKS {
            if other.raised.load(SeqCst) {
                self.saw.store(true, SeqCst);
                return;
            }
            spin_loop();
        }
    }
}

impl HoldGate {
    /// A gate for the tickets of these two numbers.
    pub fn new(first: u64, second: u64) -> HoldGate
        requires { first ≢ second }
    {
        HoldGate {
            first: Flag::new(first),
            second: Flag::new(second),
        }
    }

    /// Whether the first call with turn 0 for each of the two tickets saw the other's flag.
    pub fn met(&self) -> bool {
        self.first.saw.load(SeqCst) && self.second.saw.load(SeqCst)
    }
}

impl Gate for HoldGate {
    fn wants_cost(&self) -> bool
        ensures spares { result ≡ false }
    {
        false
    }

    fn pass(&self, moment: &Moment, turn: u32) -> bool
        ensures passes { result ≡ true }
    {
        if turn == 0 {
            if moment.ticket == self.first.ticket {
                self.first.hold(&self.second);
            } else if moment.ticket == self.second.ticket {
                self.second.hold(&self.first);
            }
        }
        true
    }
}

/// A gate that lets every call pass, and keeps what it was told last, for whoever shows how a run goes on. Of calls at one time it
/// may keep a part of each.
#[derive(Drop)]
pub struct TallyGate {
    commits: AtomicU32,
    nodes: AtomicU32,
    living: AtomicU32,
    awake: AtomicU32,
    cost: AtomicU32,
}

/// What a `TallyGate` was told last.
#[derive(Clone, Copy, Debug, PartialEq, Eq)]
pub struct Tally {
    pub commits: u32,
    pub nodes: u32,
    pub living: u32,
    pub awake: u32,
    /// 0 where it was told none.
    pub cost: u32,
}

impl TallyGate {
    /// A gate that was told nothing yet: its counts are 0.
    pub fn new() -> TallyGate {
        TallyGate {
            commits: AtomicU32::new(0),
            nodes: AtomicU32::new(0),
            living: AtomicU32::new(0),
            awake: AtomicU32::new(0),
            cost: AtomicU32::new(0),
        }
    }

    /// What it was told last.
    pub fn tally(&self) -> Tally {
        Tally {
            commits: self.commits.load(SeqCst),
            nodes: self.nodes.load(SeqCst),
            living: self.living.load(SeqCst),
            awake: self.awake.load(SeqCst),
            cost: self.cost.load(SeqCst),
        }
    }
}

impl Gate for TallyGate {
    fn wants_cost(&self) -> bool
        ensures asks { result ≡ true }
    {
        true
    }

    fn pass(&self, moment: &Moment, _turn: u32) -> bool
        ensures passes { result ≡ true }
    {
        self.commits.store(moment.commits, SeqCst);
        self.nodes.store(moment.nodes, SeqCst);
        self.living.store(moment.living, SeqCst);
        self.awake.store(moment.awake, SeqCst);
        self.cost.store(moment.cost.unwrap_or(0), SeqCst);
        true
    }
}
