// Labels that are plain lists of names.
ghost use Rattle.std.specs.Prelude.{List, ◌≡◌, ◌+◌, ◌<◌, ◌≤◌, [], ◌∷◌, length, insert, remove, is_ok, IfOk, IfErr, OnOk, OnErr, IsTrue, vec_len, vec_capacity};
ghost use Rattle.kb_label.specs.Kept.{IsPlaceOf};
ghost use Rattle.kb_label.specs.Names.{Name, add, has, relabel, united, IsTakenBack, join, meet, minus, is_empty, IsInNameOrder};
ghost use Rattle.kb_label.specs.Forks.{IsAfterFork};

use crate::labels::Labels;
use crate::living::Living;
use crate::name_list::NameList;
use crate::process::{MAX_BITS, Process};
use std::alloc::{AllocError, Global};
use std::marker::Model;

/// A log of forks that is the list of the names that live.
///
/// It changes no label: after a fork, whoever keeps a `ListLabels` relabels it.
#[derive(Drop)]
pub struct NameLog {
    names: Vec<Process>,
}

impl Model for NameLog {
    ghost use Rattle.std.specs.Prelude.{List, length, ◌+◌, ◌≤◌, ◌≡◌};
    ghost use Rattle.kb_label.specs.Names.{Name};
    ghost use Rattle.kb_label.specs.Forks.{IsForked};
    ghost use Rattle.kb_label.specs.declared.process.TheConstants.{MAX_BITS};

    ghost Value = { List Name };

    ghost view = { λ log. log.names.items };

    ghost invariant = { λ log. IsForked log.names.items × (length log.names.items ≤ MAX_BITS + 1) };
}

impl NameLog {
    /// The processes that live, in their order.
    pub fn processes(&self) -> &[Process]
        ensures { result.now ≡ self.now }
    {
        self.names.as_slice()
    }

    /// Takes the last fork back, that of the process: it lives again in the place of its two children. It takes no memory.
    pub fn take_back(&mut self, process: &Process)
        requires { (before : List Name) × IsAfterFork before process.now self.old }
        ensures { (before : List Name) → IsAfterFork before process.now self.old → self.new ≡ before }
    {
        take_out(&mut self.names, &process.child(true));
        take_out(&mut self.names, &process.child(false));
        put(&mut self.names, *process);
    }
}

impl Living for NameLog {
    ghost living_names = { λ log. log };

    fn start(alloc: Global) -> Result<NameLog, AllocError> {
        let mut names = Vec::new(alloc);
        names.push(Process::root())?;
        Ok(NameLog { names })
    }

    fn fork(&mut self, process: &Process) -> Result<(), AllocError> {
        self.names.reserve(1)?;
        if let Ok(place) = place_of(self.names.as_slice(), process) {
            self.names.remove(place);
            put(&mut self.names, process.child(true));
            put(&mut self.names, process.child(false));
        }
        Ok(())
    }

    fn is_living(&self, process: &Process) -> bool {
        place_of(self.names.as_slice(), process).is_ok()
    }

    fn living(&self) -> u32 {
        self.names.len() as u32
    }

    fn names(&self) -> Result<Vec<Process>, AllocError> {
        self.names.as_slice().to_vec(*self.names.allocator())
    }

    fn copy(&self) -> Result<NameLog, AllocError> {
        let mut names = Vec::with_capacity(*self.names.allocator(), self.names.len() + 1)?;
        names.extend_from_slice(self.names.as_slice())?;
        Ok(NameLog { names })
    }
}

// Adds a name at its place, where there is room for it.
fn put(names: &mut Vec<Process>, name: Process)
    requires in_order { IsInNameOrder names.old.items }
    requires room { vec_len names.old < vec_capacity names.old }
    ensures items { names.new.items ≡ add name names.old.items }
    ensures len { vec_len names.new ≤ vec_len names.old + 1 }
    ensures capacity { vec_capacity names.old ≤ vec_capacity names.new }
{
    if let Err(place) = place_of(names.as_slice(), &name) {
        names.insert(place, name).unwrap();
    }
}

// Takes a name out, where it is there.
fn take_out(names: &mut Vec<Process>, name: &Process)
    requires in_order { IsInNameOrder names.old.items }
    ensures items { names.new.items ≡ minus names.old.items (name.now ∷ []) }
    ensures len { vec_len names.new ≤ vec_len names.old }
    ensures less { IsTrue (has names.old.items name.now) → vec_len names.new < vec_len names.old }
    ensures capacity { vec_capacity names.old ≤ vec_capacity names.new }
{
    if let Ok(place) = place_of(names.as_slice(), name) {
        names.remove(place);
    }
}

// Where a name stands among others, or where it would have to be put.
fn place_of(names: &[Process], name: &Process) -> Result<usize, usize>
    requires { IsInNameOrder names.now }
    ensures { IsPlaceOf names.now name.now result }
{
    names.binary_search(name)
}

/// A label that is the list of its names.
///
/// It reads no log: its names live as long as its owner relabels it at each fork.
#[derive(Drop)]
pub struct ListLabels {
    names: NameList,
}

impl Model for ListLabels {
    ghost use Rattle.std.specs.Prelude.{List};
    ghost use Rattle.kb_label.specs.Names.{Name};

    ghost Value = { List Name };

    ghost view = { λ label. label.names };
}

impl ListLabels {
    /// Puts the two children of a process in its place, where the label has it.
    ///
    /// # Errors
    ///
    /// Want of memory; the label is then as before.
    pub fn relabel(&mut self, process: &Process) -> Result<(), AllocError>
        requires { length process.now < MAX_BITS }
        ensures ok { OnOk result (self.new ≡ relabel process.now self.old) }
        ensures back { IsTakenBack process.now self.old }
        ensures err { OnErr result (self.new ≡ self.old) }
    {
        self.names.relabel(process)
    }

    /// Puts a process of fewer than 64 bits in the place of its two children, where the label has both. It takes no memory. So it
    /// takes a relabelling back, unless a child was there before.
    pub fn unite(&mut self, process: &Process)
        ensures { self.new ≡ united process.now self.old }
    {
        self.names.unite(process)
    }

    /// The label in which the two children of a process stand in its place, where this one has it.
    ///
    /// # Errors
    ///
    /// Want of memory.
    pub fn relabelled(&self, process: &Process) -> Result<ListLabels, AllocError>
        requires { length process.now < MAX_BITS }
        ensures { IfOk result (λ label. label ≡ relabel process.now self.now) }
    {
        let names = self.names.relabelled(process)?;
        Ok(ListLabels { names })
    }

    /// Whether the process is in the label. The search begins at a place, from 0, and leaves the place behind the process, so that of
    /// processes that are asked for in their order each is found in constant time where the label has most of them.
    pub fn has_from(&self, process: &Process, place: &mut usize) -> bool
        ensures { result ≡ has self.now process.now }
    {
        self.names.has_from(process, place)
    }

    /// Whether each process of another label is in this one, which then gains nothing by it.
    pub fn includes(&self, other: &ListLabels) -> bool
        ensures exactly { result ≡ is_empty (minus other.now self.now) }
        ensures same { IsTrue result → join self.now other.now ≡ self.now }
    {
        self.names.includes(&other.names)
    }

    /// Whether no process is in both labels; the other one then loses nothing by this one.
    pub fn is_disjoint(&self, other: &ListLabels) -> bool
        ensures exactly { result ≡ is_empty (meet self.now other.now) }
        ensures same { IsTrue result → minus other.now self.now ≡ other.now }
    {
        self.names.is_disjoint(&other.names)
    }
}

impl Labels for ListLabels {
    type Log = NameLog;

    ghost names_under = { λ log label. label };

    fn new(alloc: Global) -> ListLabels {
        ListLabels {
            names: NameList::new(alloc),
        }
    }

    fn has(&self, _log: &NameLog, process: &Process) -> bool {
        self.names.has(process)
    }

    fn is_empty(&self, _log: &NameLog) -> bool {
        self.names.is_empty()
    }

    fn add(&mut self, _log: &NameLog, process: &Process) -> Result<(), AllocError> {
        self.names.add(process)
    }

    fn join(&mut self, _log: &NameLog, other: &ListLabels) -> Result<(), AllocError> {
        self.names.join(&other.names)
    }

    fn meet(&mut self, _log: &NameLog, other: &ListLabels) -> Result<(), AllocError> {
        self.names.meet(&other.names);
        Ok(())
    }

    fn minus(&mut self, _log: &NameLog, other: &ListLabels) -> Result<(), AllocError> {
        self.names.minus(&other.names);
        Ok(())
    }

    fn names(&self, _log: &NameLog) -> Result<Vec<Process>, AllocError> {
        self.names.names()
    }
}
