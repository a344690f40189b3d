// Runs: some numbers that rise, in place.
ghost use Rattle.std.specs.Prelude.{ℕ, ◌≡◌, ◌⊎◌, ◌↔◌, ◌+◌, ◌<◌, ◌≤◌, [], length, IsTrue, false};
ghost use Rattle.mkb_pick.specs.Runs.{Precedes, Holds, size, IsFilled};

use crate::task::Task;
use arrayvec::ArrayVec;
use std::marker::PhantomData;

/// How many numbers a run holds at most.
pub(crate) const LONGEST: usize = 32;

// How many numbers stay where a full run is halved.
const HALF: usize = 16;

/// Numbers that rise.
#[derive(Drop)]
pub(crate) struct Run {
    pub(crate) keys: ArrayVec<u128, 32>,
    // What the numbers are the keys of.
    tasks: PhantomData<Task>,
}

#[tactic(auto, unfolding(crate::specs::Runs::Holds, crate::specs::Runs::IsFilled, crate::specs::Runs::size, crate::specs::Runs::Precedes))]
impl Run {
    /// No number.
    pub(crate) fn new() -> Run
        ensures { result.keys.items ≡ [] }
    {
        Run {
            keys: ArrayVec::new(),
            tasks: PhantomData,
        }
    }

    /// How many numbers there are.
    #[inline]
    pub(crate) fn len(&self) -> usize
        ensures value { result ≡ size self.now }
        ensures most { result ≤ 32 }
    {
        self.keys.len()
    }

    /// The least number.
    #[inline]
    pub(crate) fn first(&self) -> u128
        requires { IsFilled self.now }
        ensures least { (k : ℕ) → Holds self.now k → result ≤ k }
        ensures held { Holds self.now result }
    {
        self.keys.as_slice()[0]
    }

    /// The greatest number.
    #[inline]
    pub(crate) fn last(&self) -> u128
        requires { IsFilled self.now }
        ensures greatest { (k : ℕ) → Holds self.now k → k ≤ result }
        ensures held { Holds self.now result }
    {
        let keys = self.keys.as_slice();
        keys[keys.len() - 1]
    }

    /// Whether a number is there.
    pub(crate) fn has(&self, key: u128) -> bool
        requires { IsFilled self.now }
        ensures { IsTrue result ↔ Holds self.now key }
    {
        self.keys.as_slice().binary_search(&key).is_ok()
    }

    /// Whether a number is there, and no other.
    pub(crate) fn is_alone(&self, key: u128) -> bool
        requires { IsFilled self.now }
        ensures only { IsTrue result → (k : ℕ) → Holds self.now k ↔ (k ≡ key) }
        ensures size { IsTrue result → size self.now ≡ 1 }
        ensures more { result ≡ false → Holds self.now key → 1 < size self.now }
    {
        self.keys.len() == 1 && self.first() == key
    }

    /// Adds a number, for which there is room.
    pub(crate) fn insert(&mut self, key: u128)
        requires filled { IsFilled self.old }
        requires room { size self.old < 32 }
        requires absent { ¬ Holds self.old key }
        ensures keys { (k : ℕ) → Holds self.new k ↔ ((k ≡ key) ⊎ Holds self.old k) }
        ensures filled { IsFilled self.new }
        ensures many { size self.new ≡ size self.old + 1 }
    {
        match self.keys.as_slice().binary_search(&key) {
            Ok(_) => unreachable!(),
            Err(place) => self.keys.insert(place, key),
        }
    }

    /// Takes a number out, and leaves another one: whether it was there.
    pub(crate) fn remove(&mut self, key: u128) -> bool
        requires filled { IsFilled self.old }
        requires more { Holds self.old key → 1 < size self.old }
        ensures found { IsTrue result ↔ Holds self.old key }
        ensures keys { (k : ℕ) → Holds self.new k ↔ (Holds self.old k × ¬ (k ≡ key)) }
        ensures filled { IsFilled self.new }
        ensures many { IsTrue result → size self.new + 1 ≡ size self.old }
        ensures same { result ≡ false → size self.new ≡ size self.old }
    {
        match self.keys.as_slice().binary_search(&key) {
            Ok(place) => {
                self.keys.remove(place);
                true
            }
            Err(_) => false,
        }
    }

    /// Holds this number alone.
    pub(crate) fn hold(&mut self, key: u128)
        ensures keys { (k : ℕ) → Holds self.new k ↔ (k ≡ key) }
        ensures filled { IsFilled self.new }
        ensures size { size self.new ≡ 1 }
    {
        self.keys.clear();
        self.keys.push(key);
    }

    /// Holds the numbers of another run.
    pub(crate) fn hold_all(&mut self, other: &Run)
        ensures keys { (k : ℕ) → Holds self.new k ↔ Holds other.now k }
        ensures filled { IsFilled other.now → IsFilled self.new }
        ensures size { size self.new ≡ size other.now }
    {
        self.fill(other.keys.as_slice());
    }

    // Holds these numbers.
    fn fill(&mut self, keys: &[u128])
        requires { length keys.now ≤ 32 }
        ensures { self.new.keys.items ≡ keys.now }
    {
        self.keys.clear();
        let _ = self.keys.try_extend_from_slice(keys);
    }

    /// Lets another run hold the upper half of the numbers in its place.
    pub(crate) fn give_half(&mut self, other: &mut Run)
        requires filled { IsFilled self.old }
        requires full { size self.old ≡ 32 }
        ensures low { IsFilled self.new }
        ensures high { IsFilled other.new }
        ensures apart { (k m : ℕ) → Holds self.new k → Holds other.new m → Precedes k m }
        ensures keys { (k : ℕ) → Holds self.old k ↔ (Holds self.new k ⊎ Holds other.new k) }
        ensures many_low { size self.new ≡ 16 }
        ensures many_high { size other.new ≡ 16 }
    {
        let keys = self.keys.as_slice();
        other.fill(&keys[HALF..]);
        self.keys.truncate(HALF);
    }
}
