// Weights with a precedence.
ghost use Rattle.std.specs.Prelude.{◌≡◌, ◌≤◌, List, ℕ, All};
ghost use Rattle.kb_kbo.specs.KnuthBendix.{KboOrder};
ghost use Rattle.kb_kbo.specs.Measures.{IsWeight, order_of};

use kb_lpo::Precedence;
use std::alloc::AllocError;
use std::marker::Model;

/// The least weight of a symbol.
pub const MIN_WEIGHT: u8 = 1;

/// The greatest weight of a symbol.
pub const MAX_WEIGHT: u8 = 15;

/// The weights of the symbols by number, each from 1 to 15, and all symbols, the greatest first.
#[derive(Drop)]
pub struct Kbo {
    weights: Vec<u8>,
    precedence: Precedence,
}

impl Model for Kbo {
    ghost use Rattle.std.specs.Prelude.{All};
    ghost use Rattle.kb_kbo.specs.KnuthBendix.{KboOrder};
    ghost use Rattle.kb_kbo.specs.Measures.{IsWeight, order_of};

    ghost Value = { KboOrder };

    ghost view = { λ a. order_of a.weights.items a.precedence };

    ghost invariant = { λ a. All IsWeight a.weights.items };
}

impl Kbo {
    /// The order of these weights and this precedence.
    pub fn new(weights: Vec<u8>, precedence: Precedence) -> Kbo
        requires { All IsWeight weights.items }
        ensures { result ≡ order_of weights.items precedence }
    {
        Kbo {
            weights,
            precedence,
        }
    }

    /// The weights of the symbols by number.
    pub fn weights(&self) -> &[u8]
        ensures weights { result.now ≡ self.now.weights }
        ensures kept { All IsWeight self.now.weights }
    {
        &self.weights
    }

    /// The symbols, the greatest first.
    pub fn precedence(&self) -> &Precedence
        ensures { result.now ≡ self.now.precedence }
    {
        &self.precedence
    }
}

impl Clone for Kbo {
    ghost is_clone = { λ a b. b ≡ a };

    fn clone(&self) -> Result<Kbo, AllocError> {
        let weights = self.weights.clone()?;
        let precedence = self.precedence.clone()?;
        Ok(Kbo {
            weights,
            precedence,
        })
    }
}
