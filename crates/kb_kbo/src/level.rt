// What a rule asks of weights and precedence, read off its sides once: a list of comparisons, one for each level of the
// lexicographic comparison.
ghost use Rattle.std.specs.Prelude.{ℕ, IsTrue, List, ◌≡◌, ◌+◌, ◌*◌, ◌<◌, ◌≤◌, IfOk, length, slice_index};
ghost use Rattle.kb_term.specs.Tree.{tree_size};
ghost use Rattle.kb_term.specs.View.{tree_of};
ghost use Rattle.kb_linear.specs.Limits.{IsMeasurable};
ghost use Rattle.kb_kbo.specs.KnuthBendix.{KboOrder, weight, symbol_weight};
ghost use Rattle.kb_kbo.specs.Asking.{value_of, ComparesWeights, AreAsked};
ghost use Rattle.kb_kbo.specs.declared.level.Tie.{Tie};

use crate::order::holds_variables;
use kb_lpo::agreement;
use kb_term::{MAX_SIZE, Memory, Symbol, Term};

/// How many symbols a signature may have for orders to be tried.
pub(crate) const MAX_SYMBOLS: usize = 8;

/// How often each of the first 8 symbols occurs, and how often variables and all other symbols do together.
#[derive(Clone, Copy)]
pub(crate) struct Tally {
    rest: u16,
    symbols: [u16; 8],
}

impl Tally {
    /// Nothing occurs.
    fn new() -> Tally
        ensures { (a : ℕ → ℕ) → value_of result a ≡ 0 }
    {
        Tally {
            rest: 0,
            symbols: [0; 8],
        }
    }

    /// Adds an occurrence of the symbol.
    fn add_symbol(&mut self, f: Symbol)
        requires { value_of self.old (λ _. 1) < MAX_SIZE }
        ensures { (order : KboOrder) → length order.weights ≤ 8 → value_of self.new (symbol_weight order) ≡ value_of self.old (symbol_weight order) + symbol_weight order f.0 }
    {
        if f.0 < 8 {
            self.symbols[f.0 as usize] += 1;
        } else {
            self.rest += 1;
        }
    }

    /// Adds what occurs in the term.
    fn add(&mut self, t: &Term)
        requires { value_of self.old (λ _. 1) + tree_size (tree_of t.now) ≤ MAX_SIZE }
        ensures { (order : KboOrder) → length order.weights ≤ 8 → value_of self.new (symbol_weight order) ≡ value_of self.old (symbol_weight order) + weight order (tree_of t.now) }
    {
        match t {
            Term::Var(_) => {
                self.rest += 1;
            }
            Term::App(f, arguments) => {
                self.add_symbol(*f);
                let items = arguments.items();
                for j in 0..items.len() {
                    self.add(&items[j]);
                }
            }
        }
    }

    /// What the occurrences weigh together, where each of the first 8 symbols has its weight and all else weighs 1.
    pub(crate) fn value(&self, weights: &[u8; 8]) -> u32
        ensures least { (a : ℕ → ℕ) → ((f : ℕ) → f < 8 → slice_index weights.now f ≤ a f) → result ≤ value_of self.now a }
        ensures most { (a : ℕ → ℕ) → ((f : ℕ) → f < 8 → a f ≤ slice_index weights.now f) → value_of self.now a ≤ result }
    {
        let mut total = u32::from(self.rest);
        for f in 0..8 {
            total += u32::from(self.symbols[f]) * u32::from(weights[f]);
        }
        total
    }
}

/// What decides where both sides weigh the same.
#[derive(Clone, Copy)]
pub(crate) enum Tie {
    /// Nothing: the left side is not above.
    Refused,
    /// Whether the first symbol is above the second.
    Above(Symbol, Symbol),
    /// The next level.
    Next,
}

/// A comparison of two sides: what occurs in each, up to what occurs in both, and what decides at equal weights.
#[derive(Clone, Copy)]
pub(crate) struct Level {
    pub(crate) left: Tally,
    pub(crate) right: Tally,
    pub(crate) tie: Tie,
}

impl Level {
    /// The comparison of two terms.
    fn new(s: &Term, t: &Term, tie: Tie) -> Level
        requires left { tree_size (tree_of s.now) ≤ MAX_SIZE }
        requires right { tree_size (tree_of t.now) ≤ MAX_SIZE }
        ensures weights { ComparesWeights result (tree_of s.now) (tree_of t.now) }
        ensures tie { result.tie ≡ tie }
    {
        let mut left = Tally::new();
        left.add(s);
        let mut right = Tally::new();
        right.add(t);
        Level { left, right, tie }
    }

    /// Whether both sides weigh the same with all weights.
    pub(crate) fn is_even(&self) -> bool
        ensures { IsTrue result → (a : ℕ → ℕ) → value_of self.now.left a ≡ value_of self.now.right a }
    {
        if self.left.rest != self.right.rest {
            return false;
        }
        for f in 0..8 {
            if self.left.symbols[f] != self.right.symbols[f] {
                return false;
            }
        }
        true
    }

    /// A comparison that no order meets.
    fn refused() -> Level
        ensures weights { (a : ℕ → ℕ) → value_of result.left a ≡ value_of result.right a }
        ensures tie { result.tie ≡ Tie.Refused }
    {
        Level {
            left: Tally::new(),
            right: Tally::new(),
            tie: Tie::Refused,
        }
    }
}

/// Adds the comparisons that decide whether `s` is above `t`; one that always leaves the decision to the next is left out.
pub(crate) fn push_levels(levels: &mut Vec<Level>, s: &Term, t: &Term) -> Result<(), Memory>
    requires left { IsMeasurable (tree_of s.now) }
    requires right { IsMeasurable (tree_of t.now) }
    ensures { IfOk result (λ _. AreAsked levels.old.items levels.new.items (tree_of s.now) (tree_of t.now)) }
{
    if !holds_variables(s, t) {
        levels.push(Level::refused())?;
        return Ok(());
    }
    match (s, t) {
        (Term::App(f, front), Term::App(g, back)) => {
            if *f != *g {
                levels.push(Level::new(s, t, Tie::Above(*f, *g)))?;
                return Ok(());
            }
            let ss = front.items();
            let ts = back.items();
            let n = agreement(ss, ts);
            if n < ss.len() && n < ts.len() {
                let level = Level::new(s, t, Tie::Next);
                if level.is_even() {
                    return push_levels(levels, &ss[n], &ts[n]);
                }
                levels.push(level)?;
                return push_levels(levels, &ss[n], &ts[n]);
            }
            levels.push(Level::new(s, t, Tie::Refused))?;
            Ok(())
        }
        _ => {
            levels.push(Level::new(s, t, Tie::Refused))?;
            Ok(())
        }
    }
}
