// Sets of places.
ghost use Rattle.std.specs.Prelude.{◌≡◌, ◌≢◌, ◌+◌, ◌-◌, ◌<◌, ◌≤◌, ◌==◌, ℕ, length, take, false, true, Bool, ◌∷◌, [], ◌++◌, slice_index, slice_index_or, slice_set, IsTrue};
ghost use Rattle.std.specs.Int.{bit_at};
ghost use Rattle.kb_label.specs.Packed.{digit};
ghost use Rattle.fork_labels.specs.Sets.{in_result, none_in, result_of};

use std::marker::Model;

/// The most places that a set may have.
pub(crate) const MAX_PLACES: usize = 1024;

// The places of a word.
const WORD_BITS: usize = 64;

// The words of a set.
const WORDS: usize = 16;

/// What two sets are made into.
#[derive(Clone, Copy)]
pub(crate) enum Operation {
    /// The places of either.
    Join,
    /// The places of both.
    Meet,
    /// The places of the first that the second lacks.
    Minus,
}

/// A set of the first places, at most 1,024. It is kept in place, so no call takes memory.
///
/// Contracts see for each of these places whether it is in the set.
#[derive(Drop)]
pub(crate) struct PlaceSet {
    words: [u64; WORDS],
    len: u16,
}

impl Model for PlaceSet {
    ghost use Rattle.std.specs.Prelude.{List, Bool, ◌≤◌};
    ghost use Rattle.fork_labels.specs.declared.place_set.TheConstants.{MAX_PLACES};
    ghost use Rattle.fork_labels.specs.Sets.{set_in, IsClearFrom};

    ghost Value = { List Bool };

    ghost view = { λ set. set_in set.words set.len };

    ghost invariant = { λ set. (set.len ≤ MAX_PLACES) × IsClearFrom set.words set.len };
}

impl PlaceSet {
    /// No place, of the first one alone.
    pub(crate) fn none() -> PlaceSet
        ensures { result ≡ false ∷ [] }
    {
        PlaceSet {
            words: [0; WORDS],
            len: 1,
        }
    }

    /// How many places there were.
    pub(crate) fn len(&self) -> usize
        ensures count { result ≡ length self.now }
        ensures most { result ≤ MAX_PLACES }
    {
        self.len as usize
    }

    /// The same set again.
    pub(crate) fn copy(&self) -> PlaceSet
        ensures { result ≡ self.now }
    {
        PlaceSet {
            words: self.words,
            len: self.len,
        }
    }

    /// Whether a place is in the set.
    pub(crate) fn has(&self, s: usize) -> bool
        ensures { result ≡ slice_index_or self.now s false }
    {
        s < self.len as usize && (self.words[s / WORD_BITS] >> (s % WORD_BITS)) % 2 == 1
    }

    /// Whether no place is in the set.
    pub(crate) fn is_none(&self) -> bool
        ensures { result ≡ none_in self.now }
    {
        for k in 0..WORDS {
            if has_bit(self.words[k]) {
                return false;
            }
        }
        true
    }

    /// Puts a place into the set.
    pub(crate) fn insert(&mut self, s: usize)
        requires { s < length self.old }
        ensures { self.new ≡ slice_set self.old s true }
    {
        let word = self.words[s / WORD_BITS];
        self.words[s / WORD_BITS] = with_bit(word, s % WORD_BITS, true);
    }

    /// One place more.
    pub(crate) fn push(&mut self, is_in: bool)
        requires { length self.old < MAX_PLACES }
        ensures { self.new ≡ self.old ++ is_in ∷ [] }
    {
        let s = self.len as usize;
        let word = self.words[s / WORD_BITS];
        self.words[s / WORD_BITS] = with_bit(word, s % WORD_BITS, is_in);
        self.len += 1;
    }

    /// The last place goes.
    pub(crate) fn pop(&mut self)
        requires { 0 < length self.old }
        ensures { self.new ≡ take (length self.old - 1) self.old }
    {
        let s = self.len as usize - 1;
        let word = self.words[s / WORD_BITS];
        self.words[s / WORD_BITS] = with_bit(word, s % WORD_BITS, false);
        self.len -= 1;
    }

    /// Keeps the first places alone, with a step for each one that goes.
    pub(crate) fn truncate(&mut self, len: usize)
        ensures { self.new ≡ take len self.old }
    {
        while len < self.len as usize {
            self.pop();
        }
    }

    /// What an operation makes of this set and another.
    pub(crate) fn combine(&mut self, op: Operation, other: &PlaceSet)
        requires { length self.old ≡ length other.now }
        ensures { self.new ≡ result_of op self.old other.now }
    {
        self.words = combined_words(op, &self.words, &other.words);
    }
}

// The word with a bit as it is to be.
fn with_bit(word: u64, i: usize, bit: bool) -> u64
    requires { i < 64 }
    ensures same { bit_at result i ≡ digit bit }
    ensures others { (j : ℕ) → j < 64 → j ≢ i → bit_at result j ≡ bit_at word j }
{
    if bit {
        word | (1u64 << i)
    } else {
        word & !(1u64 << i)
    }
}

// Whether the word has a bit that is set.
fn has_bit(word: u64) -> bool
    ensures some { IsTrue result → (j : ℕ) × (j < 64) × (bit_at word j ≡ 1) }
    ensures none { result ≡ false → word ≡ 0 }
{
    word != 0
}

// What an operation makes of two words.
fn combined_word(op: Operation, a: u64, b: u64) -> u64
    ensures { (j : ℕ) → j < 64 → (bit_at result j == 1) ≡ in_result op (bit_at a j == 1) (bit_at b j == 1) }
{
    match op {
        Operation::Join => a | b,
        Operation::Meet => a & b,
        Operation::Minus => a & !b,
    }
}

// What an operation makes of the words of two sets.
fn combined_words(op: Operation, a: &[u64; WORDS], b: &[u64; WORDS]) -> [u64; WORDS]
    ensures { (k j : ℕ) → k < 16 → j < 64 → (bit_at (slice_index result k) j == 1) ≡ in_result op (bit_at (slice_index a.now k) j == 1) (bit_at (slice_index b.now k) j == 1) }
{
    let mut words = *a;
    for k in 0..WORDS {
        words[k] = combined_word(op, a[k], b[k]);
    }
    words
}
