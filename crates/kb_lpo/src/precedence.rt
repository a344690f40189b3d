// Precedences of path orders.
ghost use Rattle.std.specs.Prelude.{◌≡◌, map};
ghost use Rattle.kb_term.specs.declared.term.Symbol.{Symbol};

use kb_term::Symbol;
use std::alloc::AllocError;
use std::marker::Model;

/// All symbols, the greatest first.
#[derive(Drop)]
pub struct Precedence {
    symbols: Vec<Symbol>,
}

impl Model for Precedence {
    ghost use Rattle.std.specs.Prelude.{List, ℕ, map};

    ghost Value = { List ℕ };

    ghost use Rattle.kb_term.specs.declared.term.Symbol.{Symbol};

    ghost view = { λ a. map (λ (f : Symbol). f.0) a.symbols.items };
}

impl Precedence {
    /// The symbols as a precedence, the greatest first.
    pub fn new(symbols: Vec<Symbol>) -> Precedence
        ensures { result ≡ map (λ (f : Symbol). f.0) symbols.items }
    {
        Precedence { symbols }
    }

    /// The symbols, the greatest first.
    pub fn symbols(&self) -> &[Symbol]
        ensures { map (λ (f : Symbol). f.0) result.now ≡ self.now }
    {
        &self.symbols
    }
}

impl Clone for Precedence {
    ghost is_clone = { λ a b. b ≡ a };

    fn clone(&self) -> Result<Precedence, AllocError> {
        let symbols = self.symbols.clone()?;
        Ok(Precedence { symbols })
    }
}
