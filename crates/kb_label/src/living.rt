// Which processes live.
ghost use Rattle.std.specs.Prelude.{◌≡◌, ◌<◌, ◌≤◌, List, [], ◌∷◌, length, IsTrue, OnOk, OnErr, IfOk};
ghost use Rattle.kb_label.specs.Names.{Name, root, has, relabel};
ghost use Rattle.kb_label.specs.Forks.{IsForked};

use crate::process::{MAX_BITS, Process};
use std::alloc::{AllocError, Global};

/// The most processes that may live at once: a fork of the last but one still has a name of at most 1,023 bits.
pub const MAX_LIVING: u32 = MAX_BITS as u32 + 1;

/// A log of forks. Contracts see it as the list of the names that live, in their order.
///
/// The first process lives at the start; a fork puts its two children in the place of a process.
pub trait Living: Drop {
    // the names that live
    ghost living_names: { Self → List Name };

    /// The log in which the first process lives alone.
    fn start(alloc: Global) -> Result<Self, AllocError>
        ensures { IfOk result (λ log. living_names log ≡ root ∷ []) };

    /// Forks a process: its two children live in its place.
    ///
    /// # Errors
    ///
    /// Want of memory; the log is then as before.
    fn fork(&mut self, process: &Process) -> Result<(), AllocError>
        requires living { IsTrue (has (living_names self.old) process.now) }
        requires room { length (living_names self.old) < MAX_LIVING }
        ensures ok { OnOk result (living_names self.new ≡ relabel process.now (living_names self.old)) }
        ensures err { OnErr result (self.new ≡ self.old) };

    /// Whether the process lives.
    fn is_living(&self, process: &Process) -> bool
        ensures { result ≡ has (living_names self.now) process.now };

    /// How many processes live.
    fn living(&self) -> u32
        ensures count { result ≡ length (living_names self.now) }
        ensures most { result ≤ MAX_LIVING }
        ensures forked { IsForked (living_names self.now) };

    /// The names that live are what forks make of the first, and at most 1,024. It does nothing: its contract says what each log
    /// keeps.
    fn are_forked(&self)
        ensures most { length (living_names self.now) ≤ MAX_LIVING }
        ensures forked { IsForked (living_names self.now) }
    {
        self.living();
    }

    /// The names that live, in their order.
    fn names(&self) -> Result<Vec<Process>, AllocError>
        ensures { IfOk result (λ names. names.items ≡ living_names self.now) };

    /// The same log again, under which each label stands for the same processes.
    fn copy(&self) -> Result<Self, AllocError>
        ensures { IfOk result (λ log. log ≡ self.now) };
}
