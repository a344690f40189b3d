// Logs of forks by places.
ghost use Rattle.std.specs.Prelude.{◌≡◌, ◌<◌, ◌≤◌, ◌∷◌, [], ◌++◌, ℕ, false, filter, length, map, slice_index, slice_index_or, IsTrue, OnOk, OnErr, IfOk};
ghost use Rattle.kb_label.specs.Names.{has, relabel, IsInNameOrder};
ghost use Rattle.fork_labels.specs.Places.{forked, living_of, names_of, picked, place_in, IsLog};

use crate::place_set::PlaceSet;
use kb_label::{Living, MAX_BITS, MAX_LIVING, NameLog, Process};
use std::alloc::{AllocError, Global};
use std::marker::Model;

/// A log of forks by places. At a fork the first child keeps its parent's place and the second takes the next number, so
/// the log is the list of the places that the forks split, at most 1,023 of them.
///
/// It touches no label, and needs none: see `forks_relabel_each_label`. Contracts see it as that list, the first fork
/// first.
#[derive(Drop)]
pub struct ForkLog {
    living: NameLog,
    places: Vec<u16>,
    forks: Vec<u16>,
}

impl Model for ForkLog {
    ghost use Rattle.std.specs.Prelude.{List, ℕ, length, map, ◌≡◌, ◌<◌};
    ghost use Rattle.fork_labels.specs.Places.{IsLog, names_of, living_of, place_in};

    ghost Value = { List ℕ };

    ghost view = { λ log. log.forks.items };

    ghost invariant = { λ log. IsLog log.forks.items × (log.places.items ≡ map (place_in (names_of log.forks.items)) (living_of log.forks.items)) × (log.living ≡ living_of log.forks.items) × (length log.forks.items < 1024) };
}

impl ForkLog {
    /// The places that the forks split, the first fork first.
    pub(crate) fn forks(&self) -> &[u16]
        ensures forks { result.now ≡ self.now }
        ensures log { IsLog self.now }
        ensures few { length self.now < MAX_LIVING }
    {
        self.forks.as_slice()
    }

    /// The names of the processes whose places are in a set.
    pub(crate) fn names_at(&self, set: &PlaceSet) -> Result<Vec<Process>, AllocError>
        ensures { IfOk result (λ names. names.items ≡ filter (λ q. slice_index_or set.now (place_in (names_of self.now) q) false) (living_of self.now)) }
    {
        let alloc = *self.places.allocator();
        names_among(alloc, self.living.processes(), self.places.as_slice(), set)
    }

    /// The place of a process, or the number of places where it doesn't live.
    pub(crate) fn place_of(&self, process: &Process) -> usize
        ensures place { result ≡ place_in (names_of self.now) process.now }
        ensures most { result ≤ MAX_LIVING }
    {
        place_among(self.living.processes(), self.places.as_slice(), process)
    }
}

impl Living for ForkLog {
    ghost living_names = { living_of };

    fn start(alloc: Global) -> Result<ForkLog, AllocError> {
        let living = NameLog::start(alloc)?;
        let places = with_place(alloc, &[], 0)?;
        Ok(ForkLog {
            living,
            places,
            forks: Vec::new(alloc),
        })
    }

    fn fork(&mut self, process: &Process) -> Result<(), AllocError>
        requires living { IsTrue (has (living_of self.old) process.now) }
        requires room { length (living_of self.old) < MAX_LIVING }
        ensures ok { OnOk result (living_of self.new ≡ relabel process.now (living_of self.old)) }
        ensures err { OnErr result (self.new ≡ self.old) }
        ensures log { OnOk result (self.new ≡ forked self.old process.now) }
        ensures valid { IsLog self.new }
    {
        let place = self.place_of(process);
        let forks = with_place(*self.forks.allocator(), self.forks.as_slice(), place as u16)?;
        let mut living = self.living.copy()?;
        living.fork(process)?;
        let places = places_after(self, process, living.processes())?;
        self.living = living;
        self.places = places;
        self.forks = forks;
        Ok(())
    }

    fn is_living(&self, process: &Process) -> bool {
        self.living.is_living(process)
    }

    fn living(&self) -> u32 {
        self.living.living()
    }

    fn names(&self) -> Result<Vec<Process>, AllocError> {
        self.living.names()
    }

    fn copy(&self) -> Result<ForkLog, AllocError> {
        let living = self.living.copy()?;
        let places = self.places.as_slice().to_vec(*self.places.allocator())?;
        let forks = self.forks.as_slice().to_vec(*self.forks.allocator())?;
        Ok(ForkLog {
            living,
            places,
            forks,
        })
    }
}

// The names whose places are in a set, where the places of the names stand in their order.
fn names_among(
    alloc: Global,
    names: &[Process],
    places: &[u16],
    set: &PlaceSet,
) -> Result<Vec<Process>, AllocError>
    requires same { length places.now ≡ length names.now }
    ensures { IfOk result (λ kept. kept.items ≡ picked (map (λ s. slice_index_or set.now s false) places.now) names.now) }
{
    let mut kept = Vec::new(alloc);
    for (i, name) in names.iter().enumerate() {
        if set.has(places[i] as usize) {
            kept.push(*name)?;
        }
    }
    Ok(kept)
}

// The place of a name, where the places of the living names stand in their order, or the number of places where it
// doesn't live. It takes time logarithmic in the names.
fn place_among(names: &[Process], places: &[u16], process: &Process) -> usize
    requires in_order { IsInNameOrder names.now }
    requires same { length places.now ≡ length names.now }
    ensures found { IsTrue (has names.now process.now) → (i : ℕ) × (i < length names.now) × (slice_index_or names.now i process.now ≡ process.now) × (result ≡ slice_index places.now i) }
    ensures absent { has names.now process.now ≡ false → result ≡ length names.now }
{
    match names.binary_search(process) {
        Ok(i) => places[i] as usize,
        Err(_) => names.len(),
    }
}

// The places of the names that live after a process forked, in their order: its place is the first child's, and the
// next number the second's. It takes three searches, and moves the places after those that it takes out or puts in.
fn places_after(log: &ForkLog, process: &Process, names: &[Process]) -> Result<Vec<u16>, AllocError>
    requires lives { IsTrue (has (living_of log.now) process.now) }
    requires room { length (living_of log.now) < MAX_LIVING }
    requires names { names.now ≡ relabel process.now (living_of log.now) }
    ensures { IfOk result (λ places. places.items ≡ map (place_in (names_of (forked log.now process.now))) names.now) }
{
    learn_short(log, process);
    let parent = index_of(log.living.processes(), process);
    let first = index_of(names, &process.child(false));
    let second = index_of(names, &process.child(true));
    let count = log.living.living() as u16;
    let mut places = log.places.as_slice().to_vec(*log.places.allocator())?;
    let place = places.remove(parent);
    places.insert(first, place)?;
    places.insert(second, count)?;
    Ok(places)
}

// Where a name stands among the living names, which are in their order.
fn index_of(names: &[Process], process: &Process) -> usize
    requires in_order { IsInNameOrder names.now }
    requires there { IsTrue (has names.now process.now) }
    ensures within { result < length names.now }
    ensures at { slice_index_or names.now result process.now ≡ process.now }
{
    match names.binary_search(process) {
        Ok(i) => i,
        Err(i) => i,
    }
}

// A process that lives beside fewer than 1,023 others has fewer than 1,023 bits.
fn learn_short(log: &ForkLog, process: &Process)
    requires lives { IsTrue (has (living_of log.now) process.now) }
    requires room { length (living_of log.now) < MAX_LIVING }
    ensures { length process.now < MAX_BITS }
{
    log.are_forked();
}

// The forks with one more.
fn with_place(alloc: Global, forks: &[u16], s: u16) -> Result<Vec<u16>, AllocError>
    ensures { IfOk result (λ more. more.items ≡ forks.now ++ s ∷ []) }
{
    let mut more = forks.to_vec(alloc)?;
    more.push(s)?;
    Ok(more)
}
