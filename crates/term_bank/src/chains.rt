// Places, found by their hashes.
ghost use Rattle.std.specs.Prelude.{ℕ, ◌≡◌, ◌∷◌, [], ◌++◌, ◌+◌, ◌-◌, ◌<◌, ◌≤◌, length, take, slice_get, unwrap_or, Some, MatchOption, IfSome, OnOk, OnErr};
ghost use Rattle.term_bank.specs.Chains.{slot_of as slot_in, hashes_of, HasNone, IsLast, IsLink, IsChained, AreHeads, AreLinked};

use std::alloc::{AllocError, Global};
use std::marker::Model;

/// The most places that there may be.
pub(crate) const MAX_PLACES: usize = 4_194_304;

// The slots that the first place brings.
const FEWEST_SLOTS: usize = 16;

/// The hashes of places, which are numbered from 0. The places whose hashes have a slot in common are linked, the last one
/// first, so that the last places can be taken out of their chains.
///
/// Contracts see it as the list of the hashes.
#[derive(Drop)]
pub(crate) struct Chains {
    heads: Vec<u32>,
    links: Vec<Link>,
}

/// A place: its hash, and one more than the place before it in its chain, or 0.
#[derive(Clone, Copy)]
pub(crate) struct Link {
    hash: u32,
    next: u32,
}

impl Model for Chains {
    ghost use Rattle.std.specs.Prelude.{ℕ, List};

    ghost Value = { List ℕ };

    ghost use Rattle.term_bank.specs.Chains.{hashes_of, IsChained};

    ghost view = { λ c. hashes_of c.links.items };

    ghost invariant = { λ c. IsChained c.heads.items c.links.items };
}

impl Chains {
    /// No place. It takes no memory.
    pub(crate) fn new(alloc: Global) -> Chains
        ensures { result ≡ [] }
    {
        Chains {
            heads: Vec::new(alloc),
            links: Vec::new(alloc),
        }
    }

    /// The hash of a place.
    pub(crate) fn hash(&self, place: u32) -> u32
        requires { place < length self.now }
        ensures { slice_get self.now place ≡ Some result }
    {
        self.links[place as usize].hash
    }

    /// The last place that has the hash, before a place that has it or of all.
    pub(crate) fn last(&self, hash: u32, before: Option<u32>) -> Option<u32>
        requires { IfSome before (λ place. slice_get self.now place ≡ Some hash) }
        ensures { MatchOption result (HasNone self.now hash (unwrap_or before (length self.now))) (λ place. IsLast self.now hash (unwrap_or before (length self.now)) place) }
    {
        let link = first_link(self.heads.as_slice(), self.links.as_slice(), hash, before);
        follow(self.heads.as_slice(), self.links.as_slice(), hash, link)
    }

    /// Adds a place at the end.
    pub(crate) fn push(&mut self, hash: u32) -> Result<(), AllocError>
        requires { length self.old < MAX_PLACES }
        ensures ok { OnOk result (self.new ≡ self.old ++ hash ∷ []) }
        ensures err { OnErr result (self.new ≡ self.old) }
    {
        make_room(&mut self.heads, &mut self.links)?;
        let slot = slot_of(self.heads.len(), hash);
        let next = self.heads[slot];
        self.links.push(Link { hash, next })?;
        self.heads[slot] = self.links.len() as u32;
        Ok(())
    }

    /// Keeps the first places alone. It takes no memory.
    pub(crate) fn truncate(&mut self, len: u32)
        requires { len ≤ length self.old }
        ensures { self.new ≡ take len self.old }
    {
        while self.links.len() > len as usize {
            unlink_last(&mut self.heads, &mut self.links);
        }
    }
}

// The slot at which the chain of a hash begins.
fn slot_of(slots: usize, hash: u32) -> usize
    requires { 0 < slots }
    ensures slot { result ≡ slot_in slots hash }
    ensures within { result < slots }
{
    hash as usize & (slots - 1)
}

// Where the chain of a hash begins, or where it goes on behind a place.
fn first_link(heads: &[u32], links: &[Link], hash: u32, before: Option<u32>) -> u32
    requires chained { IsChained heads.now links.now }
    requires before { IfSome before (λ place. slice_get (hashes_of links.now) place ≡ Some hash) }
    ensures { IsLink (length heads.now) (hashes_of links.now) (slot_in (length heads.now) hash) (unwrap_or before (length links.now)) result }
{
    if let Some(place) = before {
        return links[place as usize].next;
    }
    if heads.is_empty() {
        return 0;
    }
    heads[slot_of(heads.len(), hash)]
}

// The last place that has the hash, along its chain from a link on.
fn follow(heads: &[u32], links: &[Link], hash: u32, from: u32) -> Option<u32>
    requires chained { IsChained heads.now links.now }
    requires low { from ≤ length links.now }
    requires here { (i h : ℕ) → from ≡ i + 1 → slice_get (hashes_of links.now) i ≡ Some h → slot_in (length heads.now) h ≡ slot_in (length heads.now) hash }
    ensures { MatchOption result (HasNone (hashes_of links.now) hash from) (λ place. IsLast (hashes_of links.now) hash from place) }
{
    let mut link = from;
    while link > 0 {
        let place = link - 1;
        let at = links[place as usize];
        if at.hash == hash {
            return Some(place);
        }
        link = at.next;
    }
    None
}

// Makes the slots more where there are as many places as slots.
fn make_room(heads: &mut Vec<u32>, links: &mut Vec<Link>) -> Result<(), AllocError>
    requires chained { IsChained heads.old.items links.old.items }
    requires few { length links.old.items < MAX_PLACES }
    ensures chained { IsChained heads.new.items links.new.items }
    ensures hashes { hashes_of links.new.items ≡ hashes_of links.old.items }
    ensures room { OnOk result (length links.new.items < length heads.new.items) }
{
    let count = links.len();
    if count < heads.len() {
        return Ok(());
    }
    let slots = (2 * count).max(FEWEST_SLOTS);
    let mut wider = vec![in *heads.allocator(); 0u32; slots]?;
    link_all(&mut wider, links);
    *heads = wider;
    Ok(())
}

// Links the places anew, from slots that lead nowhere.
fn link_all(heads: &mut Vec<u32>, links: &mut Vec<Link>)
    requires empty { (slot link : ℕ) → slice_get heads.old.items slot ≡ Some link → link ≡ 0 }
    requires some { 0 < length heads.old.items }
    requires few { length links.old.items ≤ MAX_PLACES }
    ensures heads { AreHeads heads.new.items (hashes_of links.new.items) (length links.new.items) }
    ensures links { AreLinked (length heads.new.items) links.new.items }
    ensures hashes { hashes_of links.new.items ≡ hashes_of links.old.items }
    ensures slots { length heads.new.items ≡ length heads.old.items }
{
    for place in 0..links.len() {
        let hash = links[place].hash;
        let slot = slot_of(heads.len(), hash);
        links[place] = Link {
            hash,
            next: heads[slot],
        };
        heads[slot] = place as u32 + 1;
    }
}

// Takes the last place out of its chain, which it leads.
fn unlink_last(heads: &mut Vec<u32>, links: &mut Vec<Link>)
    requires chained { IsChained heads.old.items links.old.items }
    requires some { 0 < length links.old.items }
    ensures chained { IsChained heads.new.items links.new.items }
    ensures links { links.new.items ≡ take (length links.old.items - 1) links.old.items }
{
    if let Some(last) = links.pop() {
        let slot = slot_of(heads.len(), last.hash);
        heads[slot] = last.next;
    }
}
