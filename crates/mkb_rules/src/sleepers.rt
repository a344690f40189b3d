// The processes that sleep.
ghost use Rattle.std.specs.Prelude.{◌≡◌, ◌<◌, ◌≤◌, [], ◌∷◌, length, insert, is_ok, unwrap_or, true, IsOk, IfOk, IfErr, IsTrue, OnOk, OnErr};
ghost use Rattle.kb_label.specs.Kept.{AreAfter, AreBefore};
ghost use Rattle.kb_label.specs.Names.{add, has, minus, relabel};

use kb_label::{MAX_BITS, MAX_LIVING, Process};
use std::alloc::{AllocError, Global};
use std::marker::Model;

/// The names of the processes that sleep, in their order, each once.
///
/// There is room for as many names as may live, so that neither falling asleep nor waking takes memory.
#[derive(Drop)]
pub(crate) struct Sleepers {
    names: Vec<Process>,
}

impl Model for Sleepers {
    ghost use Rattle.std.specs.Prelude.{List, ◌≤◌, vec_capacity};
    ghost use Rattle.kb_label.specs.Names.{Name, IsInNameOrder};
    ghost use Rattle.kb_label.specs.declared.living.TheConstants.{MAX_LIVING};

    ghost Value = { List Name };

    ghost view = { λ s. s.names.items };

    ghost invariant = { λ s. IsInNameOrder s.names.items × (MAX_LIVING ≤ vec_capacity s.names) };
}

impl Sleepers {
    /// Nobody sleeps.
    ///
    /// # Errors
    ///
    /// Want of memory.
    pub(crate) fn new(alloc: Global) -> Result<Sleepers, AllocError>
        ensures { IfOk result (λ sleepers. sleepers ≡ []) }
    {
        let names = Vec::with_capacity(alloc, MAX_LIVING as usize)?;
        Ok(Sleepers { names })
    }

    /// The names, in their order.
    pub(crate) fn as_slice(&self) -> &[Process]
        ensures { result.now ≡ self.now }
    {
        self.names.as_slice()
    }

    /// Whether the process sleeps.
    pub(crate) fn has(&self, p: &Process) -> bool
        ensures { result ≡ has self.now p.now }
    {
        self.place(p).is_ok()
    }

    /// Whether the process sleeps. The search begins at a place, and leaves the place behind the process.
    pub(crate) fn has_from(&self, p: &Process, place: &mut usize) -> bool
        ensures { result ≡ has self.now p.now }
    {
        if self.is_at(p, *place) {
            *place = place.saturating_add(1);
            return true;
        }
        if self.are_before(p, *place) && self.are_after(p, *place) {
            return false;
        }
        match self.place(p) {
            Ok(at) => {
                *place = at.saturating_add(1);
                true
            }
            Err(at) => {
                *place = at;
                false
            }
        }
    }

    // Whether the name at the place is the process's.
    fn is_at(&self, p: &Process, place: usize) -> bool
        ensures { IsTrue result → has self.now p.now ≡ true }
    {
        place < self.names.len() && self.names[place] == *p
    }

    // Whether the names before the place come before the process: the last of them does.
    fn are_before(&self, p: &Process, place: usize) -> bool
        ensures { IsTrue result → AreBefore self.now place p.now }
    {
        place == 0 || (place <= self.names.len() && self.names[place - 1].cmp(p).is_lt())
    }

    // Whether the names from the place on come after the process: the first of them does.
    fn are_after(&self, p: &Process, place: usize) -> bool
        ensures { IsTrue result → AreAfter self.now place p.now }
    {
        place >= self.names.len() || self.names[place].cmp(p).is_gt()
    }

    /// The process falls asleep. It takes no memory where fewer sleep than may live.
    ///
    /// # Errors
    ///
    /// Want of memory; who sleeps is then as before.
    pub(crate) fn add(&mut self, p: &Process) -> Result<(), AllocError>
        ensures ok { OnOk result (self.new ≡ add p.now self.old) }
        ensures err { OnErr result (self.new ≡ self.old) }
        ensures succeeds { length self.old < MAX_LIVING → IsOk result }
    {
        match self.place(p) {
            Ok(_) => Ok(()),
            Err(place) => {
                self.names.insert(place, *p)?;
                Ok(())
            }
        }
    }

    /// The process wakes. It takes no memory.
    pub(crate) fn remove(&mut self, p: &Process)
        ensures { self.new ≡ minus self.old (p.now ∷ []) }
    {
        self.names.retain(|name| *name != *p);
    }

    /// Who sleeps after a fork: the children of a sleeping process sleep. None where the process doesn't sleep, and nothing changes.
    ///
    /// # Errors
    ///
    /// Want of memory.
    pub(crate) fn forked(&self, p: &Process) -> Result<Option<Sleepers>, AllocError>
        requires { length p.now < MAX_BITS }
        ensures { IfOk result (λ sleepers. unwrap_or sleepers self.now ≡ relabel p.now self.now) }
    {
        if !self.has(p) {
            return Ok(None);
        }
        let mut sleepers = self.copy()?;
        sleepers.remove(p);
        sleepers.add(&p.child(true))?;
        sleepers.add(&p.child(false))?;
        Ok(Some(sleepers))
    }

    // The same names again, with as much room.
    fn copy(&self) -> Result<Sleepers, AllocError>
        ensures { IfOk result (λ sleepers. sleepers ≡ self.now) }
    {
        let mut names = Vec::with_capacity(*self.names.allocator(), MAX_LIVING as usize)?;
        names.extend_from_slice(self.names.as_slice())?;
        Ok(Sleepers { names })
    }

    // Where the name stands, or where it would have to be put.
    fn place(&self, p: &Process) -> Result<usize, usize>
        ensures found { is_ok result ≡ has self.now p.now }
        ensures present { IfOk result (λ _. add p.now self.now ≡ self.now) }
        ensures within { IfErr result (λ place. place ≤ length self.now) }
        ensures absent { IfErr result (λ place. insert self.now place p.now ≡ add p.now self.now) }
    {
        self.names.as_slice().binary_search(p)
    }
}
