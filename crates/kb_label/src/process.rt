// Names of processes.
ghost use Rattle.std.specs.Prelude.{◌≡◌, ◌+◌, ◌-◌, ◌*◌, ◌^◌, ◌<◌, ◌≤◌, ◌↔◌, length, slice_get, IsTrue, Some, None};
ghost use Rattle.kb_label.specs.Names.{root, child, name_cmp};
ghost use Rattle.kb_label.specs.Packed.{digit, word};
ghost use Rattle.kb_label.specs.Kept.{kept_name, IsKept};

use std::alloc::AllocError;
use std::cmp::Ordering;
use std::marker::Model;

/// The most bits that a name may have.
pub const MAX_BITS: usize = 1023;

/// The bits of a word. Of a process of fewer bits both children's names fit one.
pub const WORD_BITS: usize = 64;

// The words of a name: room for one bit more than the most.
const WORDS: usize = 16;

/// The name of a process: a string of at most 1,023 bits. It is kept in place, so a copy takes no memory.
///
/// The first process has the empty name; a fork of a process adds a 0 and a 1 at the end of its name. Names are
/// ordered by their length, and those of one length by the first bit that differs, 0 before 1. The bits are packed into
/// words, the first bit highest, so that names of one length are ordered as their words are.
#[derive(Debug)]
pub struct Process {
    words: [u64; WORDS],
    len: u16,
}

impl Model for Process {
    ghost use Rattle.std.specs.Prelude.{List, Bool, length, ◌≤◌, ◌≡◌};
    ghost use Rattle.kb_label.specs.declared.process.TheConstants.{MAX_BITS, WORDS};
    ghost use Rattle.kb_label.specs.Packed.{name_in, words_of};

    ghost Value = { List Bool };

    ghost view = { λ p. name_in p.words p.len };

    ghost invariant = { λ p. (p.len ≤ MAX_BITS) × (p.words ≡ words_of WORDS (name_in p.words p.len)) × (length (name_in p.words p.len) ≡ p.len) };

    ghost inverse = { λ l. record { words = words_of WORDS l; len = length l } };

    ghost use Rattle.std.proofs.Common.{sym};

    ghost inverse_ok = { λ a h i. record { words = sym h.1 i; len = h.2 i } };
}

impl Process {
    /// The first process.
    pub fn root() -> Process
        ensures { result ≡ root }
    {
        Process {
            words: [0; WORDS],
            len: 0,
        }
    }

    /// How many bits the name has, at most `MAX_BITS`.
    pub fn len(&self) -> usize
        ensures count { result ≡ length self.now }
        ensures most { length self.now ≤ MAX_BITS }
    {
        self.len as usize
    }

    /// Whether this is the first process, whose name has no bit.
    pub fn is_empty(&self) -> bool
        ensures { IsTrue result ↔ (self.now ≡ root) }
    {
        self.len == 0
    }

    /// A bit of the name, the first one at 0.
    pub fn bit(&self, i: usize) -> bool
        requires { i < length self.now }
        ensures { slice_get self.now i ≡ Some result }
    {
        let word = self.words[i / WORD_BITS];
        (word >> (WORD_BITS - 1 - i % WORD_BITS)) % 2 == 1
    }

    /// The name with one bit more, which a fork gives to one of the two processes in the place of this one.
    pub fn child(&self, bit: bool) -> Process
        requires { length self.now < MAX_BITS }
        ensures { result ≡ child self.now bit }
    {
        let mut child = *self;
        child.push(bit);
        child
    }

    /// The process whose name has these bits.
    pub fn from_bits(bits: &[bool]) -> Process
        requires { length bits.now ≤ MAX_BITS }
        ensures { result ≡ bits.now }
    {
        let mut process = Process::root();
        for bit in bits {
            process.push(*bit);
        }
        process
    }

    /// The first bits of the name, packed into a word.
    pub(crate) fn first_word(&self) -> u64
        ensures { result ≡ word 64 self.now }
    {
        self.words[0]
    }

    /// The short name with this word and this length.
    pub(crate) fn of_word(first: u64, len: u16) -> Process
        requires { IsKept first len None }
        ensures { result ≡ kept_name first len None }
    {
        let mut words = [0; WORDS];
        words[0] = first;
        Process { words, len }
    }

    /// How the short name with this word and this length stands to this one in the order of names.
    pub(crate) fn behind_word(&self, first: u64, len: u16) -> Ordering
        requires { IsKept first len None }
        ensures { result ≡ name_cmp (kept_name first len None) self.now }
    {
        match len.cmp(&self.len) {
            Ordering::Equal => first.cmp(&self.words[0]),
            by_length => by_length,
        }
    }

    // How the name stands to another one of its length in the order of names. It is out of line, so that names that fit a word are
    // compared in line.
    #[inline(never)]
    fn against_as_long(&self, other: &Process) -> Ordering
        requires { length self.now ≡ length other.now }
        ensures { result ≡ name_cmp self.now other.now }
    {
        self.words.cmp(&other.words)
    }

    // Adds a bit at the end of the name.
    fn push(&mut self, bit: bool)
        requires { length self.old < MAX_BITS }
        ensures { self.new ≡ child self.old bit }
    {
        let end = self.len as usize;
        self.words[end / WORD_BITS] += weight(bit, end % WORD_BITS);
        self.len += 1;
    }
}

// What a bit at a place of a word, the highest at 0, adds to the word.
fn weight(bit: bool, place: usize) -> u64
    requires { place < 64 }
    ensures { result ≡ digit bit * 2 ^ (64 - 1 - place) }
{
    u64::from(bit) << (WORD_BITS - 1 - place)
}

impl Clone for Process {
    ghost use Rattle.std.specs.Prelude.{◌≡◌};

    ghost is_clone = { λ p q. q ≡ p };

    fn clone(&self) -> Result<Process, AllocError> {
        Ok(*self)
    }
}

impl Copy for Process {}

impl PartialEq for Process {
    ghost use Rattle.kb_label.specs.Names.{name_eq};
    ghost use Rattle.kb_label.specs.NameOrder.{bits_cmp-total};
    ghost use Rattle.std.specs.Cmp.{eq_by_cmp_equiv, partial_equiv_from_equiv};

    ghost eq = { name_eq };

    ghost laws = { partial_equiv_from_equiv (eq_by_cmp_equiv bits_cmp-total) };

    fn eq(&self, other: &Process) -> bool {
        if self.len == other.len && self.len as usize <= WORD_BITS {
            self.words[0] == other.words[0]
        } else {
            self.cmp(other).is_eq()
        }
    }
}

impl Eq for Process {
    ghost use Rattle.kb_label.specs.NameOrder.{bits_cmp-total};
    ghost use Rattle.std.specs.Cmp.{eq_by_cmp_equiv};

    ghost laws = { eq_by_cmp_equiv bits_cmp-total };
}

impl PartialOrd for Process {
    ghost use Rattle.std.specs.Cmp.{partial_order_from_agreeing_total};
    ghost use Rattle.std.specs.Ordering.{as_partial_cmp};
    ghost use Rattle.std.proofs.Common.{refl};
    ghost use Rattle.kb_label.specs.Names.{name_cmp};
    ghost use Rattle.kb_label.specs.NameOrder.{name_cmp-total, name_eq-by_cmp};

    ghost partial_cmp = { as_partial_cmp name_cmp };

    ghost laws = { partial_order_from_agreeing_total name_cmp name_cmp-total (λ p q. refl) name_eq-by_cmp };

    fn partial_cmp(&self, other: &Process) -> Option<Ordering> {
        Some(self.cmp(other))
    }
}

impl Ord for Process {
    ghost use Rattle.std.proofs.Common.{refl};
    ghost use Rattle.kb_label.specs.Names.{name_cmp};
    ghost use Rattle.kb_label.specs.NameOrder.{name_cmp-total, name_eq-by_cmp};

    ghost cmp = { name_cmp };

    ghost total = { name_cmp-total };

    ghost matches_partial_cmp = { λ p q. refl };

    ghost matches_eq = { name_eq-by_cmp };

    fn cmp(&self, other: &Process) -> Ordering {
        match self.len.cmp(&other.len) {
            Ordering::Equal if self.len as usize <= WORD_BITS => self.words[0].cmp(&other.words[0]),
            Ordering::Equal => self.against_as_long(other),
            by_length => by_length,
        }
    }
}
