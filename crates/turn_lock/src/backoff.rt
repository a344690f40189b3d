// Waiting for other threads.
ghost use Rattle.std.specs.Prelude.{◌≡◌, ◌+◌, min};

use std::marker::Model;
use std::sync::Wait;
use std::thread::{Parker, yield_now};
use std::time::Duration;

/// How often a thread that waits only yields before it sleeps.
const YIELDS: u32 = 16;

/// The first sleep, in microseconds. Each further one is twice as long, up to the longest.
const FIRST_NAP: u64 = 15;

/// How often a sleep may be doubled at most: the longest is of 480 microseconds, so that with what the system adds it is below a
/// millisecond.
const MAX_DOUBLINGS: u32 = 5;

/// The most rests that are counted: from there on each is as long as the last.
const MOST: u32 = YIELDS + MAX_DOUBLINGS;

/// How a thread waits for others without using up a processor: it rests again and again between its looks, at first by yielding, then
/// asleep, each time twice as long, up to a longest sleep of less than half a millisecond.
///
/// Contracts see how many rests are counted, at most 21: the more there are, the longer is the next.
#[derive(Drop)]
pub struct Backoff {
    parker: Parker,
    rests: u32,
    doublings: u32,
}

impl Model for Backoff {
    ghost use Rattle.std.specs.Prelude.{ℕ, ◌≤◌};

    ghost Value = { ℕ };

    ghost view = { λ b. b.rests };

    ghost invariant = { λ b. b.rests ≤ 21 };
}

impl Backoff {
    /// Before any rest. A sleep is doubled so many times at most, and never more than five times. It takes no memory.
    pub fn new(doublings: u32) -> Backoff
        ensures { result ≡ 0 }
    {
        Backoff {
            parker: Parker::new(),
            rests: 0,
            doublings,
        }
    }

    /// Rests once.
    pub fn rest<R: Wait>(&mut self, rt: &R)
        ensures { self.new ≡ min (self.old + 1) 21 }
    {
        if self.rests < YIELDS {
            yield_now();
        } else {
            let doublings = (self.rests - YIELDS).min(self.doublings);
            let nap = FIRST_NAP << doublings.min(MAX_DOUBLINGS);
            self.parker.park_timeout(rt, Duration::from_micros(nap));
        }
        self.rests = (self.rests + 1).min(MOST);
    }

    /// Begins anew: the next rest is the first again.
    pub fn reset(&mut self)
        ensures { self.new ≡ 0 }
    {
        self.rests = 0;
    }
}
