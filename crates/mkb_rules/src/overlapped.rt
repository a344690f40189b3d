// Pairs of rules that have been overlapped, found by both rules.
ghost use Rattle.std.specs.Prelude.{◌≡◌, ◌∷◌, ◌++◌, [], MatchOption, None, OnErr, OnOk, position};
ghost use Rattle.mkb_model.specs.Effects.{gains_done_in};
ghost use Rattle.mkb_model.specs.Plain.{done_in};
ghost use Rattle.mkb_rules.specs.Forking.{with_names_at};
ghost use Rattle.mkb_rules.specs.Keyed.{is_kept_for, key_of};
ghost use Rattle.mkb_rules.specs.Kept.{plain_done};

use indexmap::IndexSet;
use kb_label::{Labels, ListLabels, NameLog};
use kb_term::RuleRef;
use std::alloc::{AllocError, Global};
use std::marker::Model;
use std::mem;

/// The processes for which two rules have been overlapped.
#[derive(Drop)]
pub(crate) struct DonePair {
    pub(crate) first: RuleRef,
    pub(crate) second: RuleRef,
    pub(crate) names: ListLabels,
}

/// A rule, as one by which pairs are looked up.
#[derive(Clone, Copy, PartialEq, Eq, Hash)]
pub(crate) struct RuleKey {
    node: u16,
    dir: u8,
}

/// Two rules, by which their pair is looked up.
#[derive(Clone, Copy, PartialEq, Eq, Hash)]
pub(crate) struct OverlapKey {
    first: RuleKey,
    second: RuleKey,
}

/// The pairs of rules that have been overlapped, in the order in which they first were. Contracts see them as their list.
///
/// The list for two rules is found by both, in constant time, expected over hashes.
#[derive(Drop)]
pub(crate) struct OverlappedPairs {
    pairs: Vec<DonePair>,
    // The rules of each pair, at its place.
    keys: IndexSet<OverlapKey>,
}

impl Model for OverlappedPairs {
    ghost use Rattle.std.specs.Prelude.{◌≡◌, List, map};
    ghost use Rattle.std.specs.Coded.{codes};
    ghost use Rattle.mkb_model.specs.Plain.{Done};
    ghost use Rattle.mkb_rules.specs.declared.overlapped.DonePair.{DonePair};
    ghost use Rattle.mkb_rules.specs.Keyed.{keys_of_pairs};

    ghost Value = { List Done };

    ghost view = { λ o. map (λ (d : DonePair). record { first = d.first; second = d.second; names = d.names }) o.pairs.items };

    ghost invariant = { λ o. o.keys.keys ≡ keys_of_pairs o.pairs.items };
}

impl OverlappedPairs {
    /// No pair. It takes no memory.
    pub(crate) fn new(alloc: Global) -> OverlappedPairs
        ensures { result ≡ [] }
    {
        OverlappedPairs {
            pairs: Vec::new(alloc),
            keys: IndexSet::new(alloc),
        }
    }

    /// The pairs, in their order.
    pub(crate) fn as_slice(&self) -> &[DonePair]
        ensures { plain_done result.now ≡ self.now }
    {
        self.pairs.as_slice()
    }

    /// The processes for which the two rules have been overlapped; none where no list of them is kept.
    pub(crate) fn names(&self, a: RuleRef, b: RuleRef) -> Option<&ListLabels>
        ensures { MatchOption result (done_in self.now a b ≡ []) (λ names. done_in self.now a b ≡ names.now) }
    {
        match self.place_of(a, b) {
            Some(place) => Some(&self.pairs[place].names),
            None => None,
        }
    }

    /// The two rules have been overlapped for these processes too.
    ///
    /// # Errors
    ///
    /// Want of memory; the pairs are then as before.
    pub(crate) fn gain(
        &mut self,
        log: &NameLog,
        a: RuleRef,
        b: RuleRef,
        names: ListLabels,
    ) -> Result<(), AllocError>
        ensures ok { OnOk result (self.new ≡ gains_done_in a b names self.old) }
        ensures err { OnErr result (self.new ≡ self.old) }
    {
        match self.place_of(a, b) {
            Some(place) => {
                let pair = &mut self.pairs[place];
                pair.names.join(log, &names)
            }
            None => self.add(a, b, names),
        }
    }

    /// The names come into the list at a place, and those that were there go out; behind the last list nothing changes.
    pub(crate) fn swap_names(&mut self, place: usize, names: &mut ListLabels)
        ensures { self.new ≡ with_names_at place names.old self.old }
    {
        if place < self.pairs.len() {
            mem::swap(&mut self.pairs[place].names, names);
        }
    }

    // Adds a list for two rules, for which none is kept.
    fn add(&mut self, a: RuleRef, b: RuleRef, names: ListLabels) -> Result<(), AllocError>
        requires { position (is_kept_for a b) self.old ≡ None }
        ensures ok { OnOk result (self.new ≡ self.old ++ (record { first = a; second = b; names = names }) ∷ []) }
        ensures err { OnErr result (self.new ≡ self.old) }
    {
        self.pairs.reserve(1)?;
        self.keys.insert(key_of(a, b))?;
        self.pairs
            .push(DonePair {
                first: a,
                second: b,
                names,
            })
            .unwrap();
        Ok(())
    }

    // Where the list for the two rules is kept; none where no list is kept for them.
    fn place_of(&self, a: RuleRef, b: RuleRef) -> Option<usize>
        ensures { result ≡ position (is_kept_for a b) self.now }
    {
        self.keys.get_index_of(&key_of(a, b))
    }
}

// The key of two rules.
fn key_of(a: RuleRef, b: RuleRef) -> OverlapKey
    ensures { result ≡ key_of a b }
{
    OverlapKey {
        first: RuleKey {
            node: a.node,
            dir: a.dir,
        },
        second: RuleKey {
            node: b.node,
            dir: b.dir,
        },
    }
}
