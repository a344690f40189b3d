// What is known of the precedences that are looked for.
ghost use Rattle.std.specs.Prelude.{ℕ, List, ◌≡◌, IsTrue, ◌≤◌, true, IsSomeAnd};
ghost use Rattle.kb_term.specs.Pair.{place_in};
ghost use Rattle.kb_lpo.specs.PathOrder.{IsAbove};
ghost use Rattle.kb_lpo.specs.Search.{Fits};

use kb_term::{MAX_SYMBOLS, Symbol};

/// How many symbols a signature may have, and of how many a search knows anything.
const SYMBOLS: usize = MAX_SYMBOLS;

/// For each of 24 symbols a row of bits: bit g of row f says that f is known not to stand behind g. The rows are closed
/// under transitivity, and each symbol stands in its own.
#[derive(Clone, Copy, PartialEq)]
pub(crate) struct Known {
    rows: [u32; SYMBOLS],
}

impl Known {
    /// Nothing is known.
    pub(crate) fn new() -> Known
        ensures { (prec : List ℕ) → Fits result prec }
    {
        let mut rows = [0; SYMBOLS];
        for i in 0..SYMBOLS {
            rows[i] = 1 << i;
        }
        Known { rows }
    }

    /// Whether `f` is known not to stand behind `g`.
    pub(crate) fn is_from(&self, f: Symbol, g: Symbol) -> bool
        ensures { result ≡ true → (prec : List ℕ) → Fits self.now prec → place_in prec f.0 ≤ place_in prec g.0 }
    {
        if f.0 < 24 {
            if g.0 < 24 {
                return self.rows[f.0 as usize] >> g.0 & 1 == 1;
            }
        }
        false
    }

    /// Records that `f` doesn't stand behind `g`, with what follows by transitivity.
    pub(crate) fn put(&mut self, f: Symbol, g: Symbol)
        ensures { (prec : List ℕ) → Fits self.old prec → place_in prec f.0 ≤ place_in prec g.0 → Fits self.new prec }
    {
        if f.0 < 24 {
            if g.0 < 24 {
                let below = self.rows[g.0 as usize];
                for x in 0..SYMBOLS {
                    if self.rows[x] >> f.0 & 1 == 1 {
                        self.rows[x] |= below;
                    }
                }
            }
        }
    }

    /// Records that `f` is above `g`, with what follows by transitivity: false where this cannot be.
    pub(crate) fn learn(&mut self, f: Symbol, g: Symbol) -> bool
        ensures { (prec : List ℕ) → Fits self.old prec → IsAbove prec f.0 g.0 → IsTrue result × Fits self.new prec }
    {
        if self.is_from(g, f) {
            return false;
        }
        self.put(f, g);
        true
    }

    /// What is known here and there.
    pub(crate) fn common(&self, other: &Known) -> Known
        ensures here { (prec : List ℕ) → Fits self.now prec → Fits result prec }
        ensures there { (prec : List ℕ) → Fits other.now prec → Fits result prec }
    {
        let mut rows = self.rows;
        for i in 0..SYMBOLS {
            rows[i] &= other.rows[i];
        }
        Known { rows }
    }
}

/// What is known in either way that is left: none where no way is.
pub(crate) fn either(first: Option<Known>, second: Option<Known>) -> Option<Known>
    ensures first { (prec : List ℕ) → IsSomeAnd first (λ known. Fits known prec) → IsSomeAnd result (λ known. Fits known prec) }
    ensures second { (prec : List ℕ) → IsSomeAnd second (λ known. Fits known prec) → IsSomeAnd result (λ known. Fits known prec) }
{
    match (first, second) {
        (Some(here), Some(there)) => Some(here.common(&there)),
        (None, other) => other,
        (other, None) => other,
    }
}
