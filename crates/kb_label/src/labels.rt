// Sets of living processes.
ghost use Rattle.std.specs.Prelude.{◌≡◌, List, [], IsTrue, OnOk, OnErr, IfOk};
ghost use Rattle.kb_label.specs.Names.{Name, has, add, join, meet, minus, is_empty, IsInNameOrder};

use crate::living::Living;
use crate::process::Process;
use std::alloc::{AllocError, Global};

/// A label: under a log of forks it stands for a set of living processes.
///
/// Contracts see it as the list of the names of these processes in their order. Each call is passed the log under
/// which the label is read. Where a call answers want of memory, the label is as before.
pub trait Labels: Drop {
    type Log: Living;

    // the names of the processes for which the label stands under the log
    ghost names_under: { Self.Log → Self → List Name };

    /// The label of no process. It takes no memory.
    fn new(alloc: Global) -> Self
        ensures { (log : Self.Log) → names_under log result ≡ [] };

    /// Whether the process is in the label.
    fn has(&self, log: &Self::Log, process: &Process) -> bool
        ensures { result ≡ has (names_under log.now self.now) process.now };

    /// Whether no process is in the label.
    fn is_empty(&self, log: &Self::Log) -> bool
        ensures { result ≡ is_empty (names_under log.now self.now) };

    /// Adds a living process.
    fn add(&mut self, log: &Self::Log, process: &Process) -> Result<(), AllocError>
        requires { IsTrue (has (Self.Log.living_names log.now) process.now) }
        ensures ok { OnOk result (names_under log.now self.new ≡ add process.now (names_under log.now self.old)) }
        ensures err { OnErr result (self.new ≡ self.old) };

    /// Adds the processes of another label.
    fn join(&mut self, log: &Self::Log, other: &Self) -> Result<(), AllocError>
        ensures ok { OnOk result (names_under log.now self.new ≡ join (names_under log.now self.old) (names_under log.now other.now)) }
        ensures err { OnErr result (self.new ≡ self.old) };

    /// Keeps the processes that are in another label too.
    fn meet(&mut self, log: &Self::Log, other: &Self) -> Result<(), AllocError>
        ensures ok { OnOk result (names_under log.now self.new ≡ meet (names_under log.now self.old) (names_under log.now other.now)) }
        ensures err { OnErr result (self.new ≡ self.old) };

    /// Takes out the processes that are in another label.
    fn minus(&mut self, log: &Self::Log, other: &Self) -> Result<(), AllocError>
        ensures ok { OnOk result (names_under log.now self.new ≡ minus (names_under log.now self.old) (names_under log.now other.now)) }
        ensures err { OnErr result (self.new ≡ self.old) };

    /// The names of the processes in the label, in their order.
    fn names(&self, log: &Self::Log) -> Result<Vec<Process>, AllocError>
        ensures names { IfOk result (λ names. names.items ≡ names_under log.now self.now) }
        ensures in_order { IsInNameOrder (names_under log.now self.now) };
}
