// Rules with their names, and pairs, as snapshots hold them.
ghost use Rattle.std.specs.Prelude.{◌≡◌, IfOk};

use kb_rewrite::{RuleList, System};
use kb_term::{Pair, Rule, RuleRef};
use std::alloc::{AllocError, Global};
use std::marker::Model;
use std::sync::Arc;

/// Rules that several snapshots may hold at once. Contracts see them as their list. A copy holds the same rules.
#[derive(Drop)]
pub struct SharedRules {
    rules: Arc<RuleList>,
}

impl Model for SharedRules {
    ghost use Rattle.std.specs.Prelude.{List};
    ghost use Rattle.std.specs.Coded.{coded_list};
    ghost use Rattle.kb_term.specs.Coding.{coded_rule};
    ghost use Rattle.kb_term.specs.Rule.{Rule};

    ghost Value = { List Rule };

    ghost coded = { coded_list coded_rule };

    ghost view = { λ s. s.rules.value };
}

impl SharedRules {
    /// These rules.
    ///
    /// # Errors
    ///
    /// Want of memory.
    pub fn new(alloc: Global, rules: Vec<Rule>) -> Result<SharedRules, AllocError>
        ensures { IfOk result (λ shared. shared ≡ rules.items) }
    {
        let rules = RuleList::new(alloc, rules)?;
        match Arc::new(alloc, rules) {
            Ok(rules) => Ok(SharedRules { rules }),
            Err(_) => Err(AllocError),
        }
    }

    /// The rules, in their order.
    pub fn as_slice(&self) -> &[Rule]
        ensures { result.now ≡ self.now }
    {
        self.rules.as_slice()
    }

    /// The rules, to rewrite with.
    pub fn system(&self) -> System<'_>
        ensures { result ≡ self.now }
    {
        System::listed(&self.rules)
    }
}

impl Clone for SharedRules {
    ghost is_clone = { λ a b. b ≡ a };

    fn clone(&self) -> Result<SharedRules, AllocError> {
        let rules = self.rules.clone()?;
        Ok(SharedRules { rules })
    }
}

/// A pair that several snapshots may hold at once. Contracts see it as the pair. A copy holds the same pair.
#[derive(Drop)]
pub struct SharedPair {
    pair: Arc<Pair>,
}

impl Model for SharedPair {
    ghost use Rattle.kb_term.specs.Pair.{Pair};
    ghost use Rattle.kb_term.specs.Coding.{coded_pair};

    ghost Value = { Pair };

    ghost coded = { coded_pair };

    ghost view = { λ s. s.pair.value };
}

impl SharedPair {
    /// This pair.
    ///
    /// # Errors
    ///
    /// Want of memory.
    pub fn new(alloc: Global, pair: Pair) -> Result<SharedPair, AllocError>
        ensures { IfOk result (λ shared. shared ≡ pair) }
    {
        match Arc::new(alloc, pair) {
            Ok(pair) => Ok(SharedPair { pair }),
            Err(_) => Err(AllocError),
        }
    }

    /// The pair.
    pub fn as_pair(&self) -> &Pair
        ensures { result.now ≡ self.now }
    {
        &self.pair
    }
}

impl Clone for SharedPair {
    ghost is_clone = { λ a b. b ≡ a };

    fn clone(&self) -> Result<SharedPair, AllocError> {
        let pair = self.pair.clone()?;
        Ok(SharedPair { pair })
    }
}

/// Rules with their names on the board, in the order of the names; there are as many of both.
#[derive(Drop)]
pub struct NamedRules {
    pub names: Vec<RuleRef>,
    pub rules: SharedRules,
}
