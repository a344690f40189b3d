// Ranks of rules.
ghost use Rattle.std.specs.Prelude.{◌≡◌, ◌<◌, ◌≤◌, ℕ, [], length, Some, IfSome, IfOk, OnOk};
ghost use Rattle.mkb_rules.specs.Ranks.{rank_at, HaveMore};

use std::alloc::{AllocError, Global};
use std::marker::Model;

/// Ranks of rules, in the order in which they were given; none where a rule has none. Different rules have different ranks.
/// Contracts see the ranks by the numbers of the rules.
#[derive(Drop)]
pub(crate) struct Ranks {
    ranks: Vec<Option<u16>>,
    count: u16,
}

impl Model for Ranks {
    ghost use Rattle.std.specs.Prelude.{ℕ, List, Option};
    ghost use Rattle.mkb_rules.specs.Ranks.{AreRanks};

    ghost Value = { List (Option ℕ) };

    ghost view = { λ r. r.ranks.items };

    ghost invariant = { λ r. AreRanks r.ranks.items r.count };
}

impl Ranks {
    /// No rule has a rank. It takes no memory.
    pub(crate) fn new(alloc: Global) -> Ranks
        ensures { result ≡ [] }
    {
        Ranks {
            ranks: Vec::new(alloc),
            count: 0,
        }
    }

    /// The rank of the rule with this number, where it has one. No other rule has the same.
    pub(crate) fn rank_of(&self, rule: usize) -> Option<u16>
        ensures value { result ≡ rank_at self.now rule }
        ensures only { IfSome result (λ r. (j : ℕ) → rank_at self.now j ≡ Some r → j ≡ rule) }
    {
        rank_in(self.ranks.as_slice(), rule)
    }

    /// The ranks by the numbers of the rules.
    pub(crate) fn as_slice(&self) -> &[Option<u16>]
        ensures { result.now ≡ self.now }
    {
        self.ranks.as_slice()
    }

    /// The rank of the rule with this number, which gets the next one where it has none. Each rule keeps its rank.
    ///
    /// # Errors
    ///
    /// Want of memory, or of a number for the rank; each rule keeps its rank then too.
    pub(crate) fn give(&mut self, rule: usize) -> Result<u16, AllocError>
        requires { rule < 131072 }
        ensures given { IfOk result (λ r. rank_at self.new rule ≡ Some r) }
        ensures more { HaveMore self.old self.new }
    {
        if let Some(rank) = self.rank_of(rule) {
            return Ok(rank);
        }
        if self.count == u16::MAX {
            return Err(AllocError);
        }
        make_room(&mut self.ranks, rule + 1)?;
        let rank = self.count;
        self.ranks[rule] = Some(rank);
        self.count = rank + 1;
        Ok(rank)
    }
}

/// The rank of the rule with this number, where it has one.
pub(crate) fn rank_in(ranks: &[Option<u16>], rule: usize) -> Option<u16>
    ensures { result ≡ rank_at ranks.now rule }
{
    if rule < ranks.len() {
        ranks[rule]
    } else {
        None
    }
}

// Makes room for so many rules. The ranks stay, after want of memory too.
fn make_room(ranks: &mut Vec<Option<u16>>, len: usize) -> Result<(), AllocError>
    ensures room { OnOk result (len ≤ length ranks.new.items) }
    ensures kept { (j : ℕ) → rank_at ranks.new.items j ≡ rank_at ranks.old.items j }
{
    if ranks.len() < len {
        ranks.resize(len, None)?;
    }
    Ok(())
}
