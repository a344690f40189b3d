// Labels that are sets of places.
ghost use Rattle.std.specs.Prelude.{◌≡◌, ◌+◌, ◌<◌, ◌≤◌, List, ℕ, [], false, length, slice_index_or, IsTrue, OnOk, OnErr};
ghost use Rattle.kb_label.specs.Names.{add, has, join, meet, minus};
ghost use Rattle.fork_labels.specs.Places.{at_end, living_of, stands_for, with_forks, IsLog, IsUnder};
ghost use Rattle.fork_labels.specs.Sets.{result_of};

use crate::fork_log::ForkLog;
use crate::place_set::{MAX_PLACES, Operation, PlaceSet};
use kb_label::{Labels, Living, Process};
use std::alloc::{AllocError, Global};
use std::marker::Model;

/// A label that no fork touches: a set of the places that there were when it was last written. It stands for the living
/// processes whose names have as a beginning one of the names that these places had then.
///
/// It takes 136 bytes in place, and of its calls `names` alone takes memory. Contracts see for each place that there was
/// whether it is in the set; so its length is the number of forks that there had been, and one. Under a log that has
/// fewer places the others count for nothing.
#[derive(Drop)]
pub struct ForkLabels {
    places: PlaceSet,
}

impl Model for ForkLabels {
    ghost use Rattle.std.specs.Prelude.{List, Bool, length, ◌<◌};

    ghost Value = { List Bool };

    ghost view = { λ label. label.places };

    ghost invariant = { λ label. 0 < length label.places };
}

impl ForkLabels {
    // The places at the end of the log.
    fn at_end(&self, log: &ForkLog) -> PlaceSet
        ensures set { result ≡ at_end log.now self.now }
        ensures count { length result ≡ length log.now + 1 }
        ensures log { IsLog log.now }
        ensures some { 0 < length self.now }
    {
        let forks = log.forks();
        let len = self.places.len();
        let mut set = self.places.copy();
        if forks.len() < len {
            set.truncate(forks.len() + 1);
            return set;
        }
        push_forks(&mut set, &forks[len - 1..]);
        set
    }

    // Whether the place from which a place stems, among those of the label, is in it.
    fn has_place(&self, forks: &[u16], place: usize) -> bool
        requires { IsLog forks.now }
        ensures place { result ≡ slice_index_or (at_end forks.now self.now) place false }
        ensures some { 0 < length self.now }
    {
        let len = self.places.len();
        if forks.len() < place {
            return false;
        }
        let mut origin = place;
        while origin >= len {
            origin = forks[origin - 1] as usize;
        }
        self.places.has(origin)
    }

    // Puts what an operation makes of this label and another in its place.
    fn combine(&mut self, log: &ForkLog, op: Operation, other: &ForkLabels)
        ensures made { self.new ≡ result_of op (at_end log.now self.old) (at_end log.now other.now) }
        ensures under { IsUnder log.now self.new }
        ensures log { IsLog log.now }
        ensures first { 0 < length self.old }
        ensures second { 0 < length other.now }
    {
        let mut places = self.at_end(log);
        places.combine(op, &other.at_end(log));
        self.places = places;
    }
}

impl Labels for ForkLabels {
    type Log = ForkLog;

    ghost names_under = { stands_for };

    fn new(_alloc: Global) -> ForkLabels
        ensures none { (log : List ℕ) → stands_for log result ≡ [] }
        ensures under { (log : List ℕ) → IsUnder log result }
    {
        ForkLabels {
            places: PlaceSet::none(),
        }
    }

    fn has(&self, log: &ForkLog, process: &Process) -> bool {
        self.has_place(log.forks(), log.place_of(process))
    }

    // The places that came with later forks stem from those of the label.
    fn is_empty(&self, log: &ForkLog) -> bool {
        if log.forks().len() + 1 < self.places.len() {
            return self.at_end(log).is_none();
        }
        self.places.is_none()
    }

    fn add(&mut self, log: &ForkLog, process: &Process) -> Result<(), AllocError>
        requires { IsTrue (has (living_of log.now) process.now) }
        ensures ok { OnOk result (stands_for log.now self.new ≡ add process.now (stands_for log.now self.old)) }
        ensures err { OnErr result (self.new ≡ self.old) }
        ensures under { IsUnder log.now self.new }
    {
        let mut places = self.at_end(log);
        places.insert(log.place_of(process));
        self.places = places;
        Ok(())
    }

    fn join(&mut self, log: &ForkLog, other: &ForkLabels) -> Result<(), AllocError>
        ensures ok { OnOk result (stands_for log.now self.new ≡ join (stands_for log.now self.old) (stands_for log.now other.now)) }
        ensures err { OnErr result (self.new ≡ self.old) }
        ensures under { IsUnder log.now self.new }
    {
        self.combine(log, Operation::Join, other);
        Ok(())
    }

    fn meet(&mut self, log: &ForkLog, other: &ForkLabels) -> Result<(), AllocError>
        ensures ok { OnOk result (stands_for log.now self.new ≡ meet (stands_for log.now self.old) (stands_for log.now other.now)) }
        ensures err { OnErr result (self.new ≡ self.old) }
        ensures under { IsUnder log.now self.new }
    {
        self.combine(log, Operation::Meet, other);
        Ok(())
    }

    fn minus(&mut self, log: &ForkLog, other: &ForkLabels) -> Result<(), AllocError>
        ensures ok { OnOk result (stands_for log.now self.new ≡ minus (stands_for log.now self.old) (stands_for log.now other.now)) }
        ensures err { OnErr result (self.new ≡ self.old) }
        ensures under { IsUnder log.now self.new }
    {
        self.combine(log, Operation::Minus, other);
        Ok(())
    }

    fn names(&self, log: &ForkLog) -> Result<Vec<Process>, AllocError> {
        log.names_at(&self.at_end(log))
    }
}

// The set after forks.
fn push_forks(set: &mut PlaceSet, forks: &[u16])
    requires { length set.old + length forks.now ≤ MAX_PLACES }
    ensures { set.new ≡ with_forks set.old forks.now }
{
    for s in forks {
        let is_in = set.has(*s as usize);
        set.push(is_in);
    }
}
