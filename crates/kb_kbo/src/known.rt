// What is known of the precedences that are looked for.
ghost use Rattle.std.specs.Prelude.{ℕ, List, ◌≡◌, IsTrue, ◌<◌, ◌≤◌, true};
ghost use Rattle.kb_term.specs.Pair.{place_in};
ghost use Rattle.kb_lpo.specs.PathOrder.{IsAbove};
ghost use Rattle.kb_kbo.specs.Search.{Fits};

use kb_term::Symbol;

/// For each two of 8 symbols f and g, at 8 f + g, whether f is known to be above g.
#[derive(Clone, Copy)]
pub(crate) struct Known {
    above: [bool; 64],
}

impl Known {
    /// Nothing is known.
    pub(crate) fn new() -> Known
        ensures { (prec : List ℕ) → Fits result prec }
    {
        Known { above: [false; 64] }
    }

    /// Whether `f` is known to be above `g`.
    pub(crate) fn is_above(&self, f: Symbol, g: Symbol) -> bool
        ensures { result ≡ true → (prec : List ℕ) → Fits self.now prec → IsAbove prec f.0 g.0 }
    {
        if f.0 < 8 {
            if g.0 < 8 {
                return self.above[8 * f.0 as usize + g.0 as usize];
            }
        }
        false
    }

    /// Whether `f` is `g` or known to be above it.
    fn is_from(&self, f: Symbol, g: Symbol) -> bool
        ensures { result ≡ true → (prec : List ℕ) → Fits self.now prec → place_in prec f.0 ≤ place_in prec g.0 }
    {
        if f == g {
            return true;
        }
        self.is_above(f, g)
    }

    /// Records that `f` is above `g` and above all that `g` is known to be above.
    fn learn_row(&mut self, f: u8, g: Symbol)
        requires { f < 8 }
        ensures { (prec : List ℕ) → Fits self.old prec → IsAbove prec f g.0 → Fits self.new prec }
    {
        for y in 0..8u8 {
            if self.is_from(g, Symbol(y)) {
                self.above[8 * f as usize + y as usize] = true;
            }
        }
    }

    /// Records that `f` is above `g`, with what follows by transitivity: false where this cannot be.
    pub(crate) fn learn(&mut self, f: Symbol, g: Symbol) -> bool
        ensures { (prec : List ℕ) → Fits self.old prec → IsAbove prec f.0 g.0 → IsTrue result × Fits self.new prec }
    {
        if self.is_from(g, f) {
            return false;
        }
        if self.is_above(f, g) {
            return true;
        }
        for x in 0..8u8 {
            if self.is_from(Symbol(x), f) {
                self.learn_row(x, g);
            }
        }
        true
    }
}
