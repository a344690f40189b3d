// What changes in the queue.
ghost use Rattle.std.specs.Prelude.{◌≡◌, ◌⊎◌, ◌↔◌, ◌+◌, ◌-◌, ◌^◌, ◌<◌, ◌≤◌, min, IsTrue, ℕ, Bool, length, vec_len};
ghost use Rattle.kb_label.specs.Names.{Name, child};
ghost use Rattle.mkb_pick.specs.Trees.{count};
ghost use Rattle.mkb_pick.specs.Tasks.{Has, IsAgenda};
ghost use Rattle.mkb_pick.specs.Listings.{IsChild};
ghost use Rattle.mkb_pick.specs.Marks.{reducing};
ghost use Rattle.mkb_pick.specs.Queues.{IsQueue, IsSound, IsAt, IsSeated, HasTask, Sits};
ghost use Rattle.mkb_pick.specs.Stores.{IsStocked};

use crate::entry::is_in;
use crate::pool::Pool;
use crate::queue::{Entry, Queue};
use crate::stores::Stores;
use crate::task::Task;
use crate::tree::Tree;
use kb_label::{MAX_BITS, Process};
use kb_node::NodeId;

impl Queue {
    /// Adds a task of a process, and takes one node out of the pool at most.
    pub(crate) fn add_task(&mut self, name: &Process, task: &Task, pool: &mut Pool)
        requires queue { IsQueue self.old }
        requires seated { IsSeated self.old name.now }
        requires absent { ¬ HasTask self.old name.now task.now }
        requires spare { 0 < vec_len pool.old.boxes }
        ensures seats { (n : Name) (c : ℕ) (r : Bool) → Sits self.new n c r ↔ Sits self.old n c r }
        ensures tasks { (n : Name) (t : Task) → HasTask self.new n t ↔ (((n ≡ name.now) × (t ≡ task.now)) ⊎ HasTask self.old n t) }
        ensures spare { self.new.spare ≡ self.old.spare }
        ensures queue { IsQueue self.new }
        ensures used { vec_len pool.old.boxes ≤ vec_len pool.new.boxes + 1 }
    {
        let Some(place) = self.seek(name) else {
            unreachable!()
        };
        self.entries[place].add(task, pool);
    }

    /// Takes out a task of a process: whether it was there.
    pub(crate) fn remove_task(&mut self, name: &Process, task: &Task, pool: &mut Pool) -> bool
        requires queue { IsQueue self.old }
        ensures found { IsTrue result ↔ HasTask self.old name.now task.now }
        ensures seats { (n : Name) (c : ℕ) (r : Bool) → Sits self.new n c r ↔ Sits self.old n c r }
        ensures tasks { (n : Name) (t : Task) → HasTask self.new n t ↔ (HasTask self.old n t × ¬ ((n ≡ name.now) × (t ≡ task.now))) }
        ensures spare { self.new.spare ≡ self.old.spare }
        ensures queue { IsQueue self.new }
        ensures kept { vec_len pool.old.boxes ≤ vec_len pool.new.boxes }
    {
        match self.seek(name) {
            Some(place) => self.entries[place].remove(task, pool),
            None => false,
        }
    }

    /// Gives a process another cost.
    pub(crate) fn set_cost(&mut self, name: &Process, cost: u64)
        requires queue { IsQueue self.old }
        requires seated { IsSeated self.old name.now }
        ensures seats { (n : Name) (c : ℕ) (r : Bool) → Sits self.new n c r ↔ (((n ≡ name.now) × (c ≡ cost) × ((d : ℕ) × Sits self.old n d r)) ⊎ ((¬ (n ≡ name.now)) × Sits self.old n c r)) }
        ensures tasks { (n : Name) (t : Task) → HasTask self.new n t ↔ HasTask self.old n t }
        ensures spare { self.new.spare ≡ self.old.spare }
        ensures queue { IsQueue self.new }
    {
        let Some(place) = self.seek(name) else {
            unreachable!()
        };
        self.entries[place].cost = cost;
    }

    /// Lets a process rest, or wakes it.
    pub(crate) fn set_resting(&mut self, name: &Process, resting: bool)
        requires queue { IsQueue self.old }
        requires seated { IsSeated self.old name.now }
        ensures seats { (n : Name) (c : ℕ) (r : Bool) → Sits self.new n c r ↔ (((n ≡ name.now) × (r ≡ resting) × ((s : Bool) × Sits self.old n c s)) ⊎ ((¬ (n ≡ name.now)) × Sits self.old n c r)) }
        ensures tasks { (n : Name) (t : Task) → HasTask self.new n t ↔ HasTask self.old n t }
        ensures spare { self.new.spare ≡ self.old.spare }
        ensures queue { IsQueue self.new }
    {
        let Some(place) = self.seek(name) else {
            unreachable!()
        };
        self.entries[place].resting = resting;
    }

    /// Whether a process is there.
    pub(crate) fn is_seated(&self, name: &Process) -> bool
        requires queue { IsQueue self.now }
        ensures { IsTrue result ↔ IsSeated self.now name.now }
    {
        self.place_of(name).is_some()
    }

    /// How many tasks a process has, or the greatest number where there are more.
    pub(crate) fn count_of(&self, name: &Process) -> usize
        requires queue { IsQueue self.now }
        ensures { (e : Entry) → IsAt self.now name.now e → result ≡ min (count e.tasks) (2 ^ 64 - 1) }
    {
        match self.place_of(name) {
            Some(place) => self.entries[place].count(),
            None => 0,
        }
    }

    /// Whether a process has a task.
    pub(crate) fn has_task(&self, name: &Process, task: &Task) -> bool
        requires { IsQueue self.now }
        ensures { IsTrue result ↔ HasTask self.now name.now task.now }
    {
        match self.place_of(name) {
            Some(place) => is_in(&self.entries[place].tasks, task),
            None => false,
        }
    }

    /// Whether a process has a reducing of the node.
    pub(crate) fn is_reducing(&self, name: &Process, n: NodeId) -> bool
        requires { IsQueue self.now }
        ensures { IsTrue result ↔ ((w : ℕ) × HasTask self.now name.now (reducing n.0 w)) }
    {
        match self.place_of(name) {
            Some(place) => self.entries[place].is_reducing(n),
            None => false,
        }
    }

    /// Whether a process has no task.
    pub(crate) fn is_idle(&self, name: &Process) -> bool
        requires { IsQueue self.now }
        ensures { IsTrue result ↔ ((t : Task) → ¬ HasTask self.now name.now t) }
    {
        match self.place_of(name) {
            Some(place) => is_bare(&self.entries[place].tasks),
            None => true,
        }
    }

    /// Takes a process out for good: its room isn't told.
    pub(crate) fn strike(&mut self, name: &Process)
        requires queue { IsQueue self.old }
        requires seated { IsSeated self.old name.now }
        ensures entries { (n : Name) (e : Entry) → IsAt self.new n e ↔ (IsAt self.old n e × ¬ (n ≡ name.now)) }
        ensures spare { self.new.spare ≡ self.old.spare }
        ensures queue { IsQueue self.new }
    {
        let _ = self.take_out(name);
        self.spare -= 1;
    }

    /// Puts the two children of a process in its place.
    pub(crate) fn fork(&mut self, name: &Process, jobs: usize, stores: &mut Stores)
        requires queue { IsQueue self.old }
        requires stocked { IsStocked stores.old }
        requires seated { IsSeated self.old name.now }
        requires short { length name.now < MAX_BITS }
        requires free { (bit : Bool) → ¬ IsSeated self.old (child name.now bit) }
        requires many { (e : Entry) → IsAt self.old name.now e → count e.tasks ≡ jobs }
        requires some { jobs ≤ stores.old.spare_jobs }
        requires room { 0 < self.old.spare }
        ensures seats { (n : Name) (c : ℕ) (r : Bool) → Sits self.new n c r ↔ ((IsChild name.now n × Sits self.old name.now c r) ⊎ ((¬ (n ≡ name.now)) × Sits self.old n c r)) }
        ensures tasks { (n : Name) (t : Task) → HasTask self.new n t ↔ ((IsChild name.now n × HasTask self.old name.now t) ⊎ ((¬ (n ≡ name.now)) × HasTask self.old n t)) }
        ensures queue { IsQueue self.new }
        ensures spare { self.new.spare + 1 ≡ self.old.spare }
        ensures jobs { stores.new.spare_jobs + jobs ≡ stores.old.spare_jobs }
        ensures stocked { IsStocked stores.new }
    {
        let entry = self.take_out(name);
        let twin = twin_of(&entry, jobs, stores);
        self.put_in(name.child(false), entry);
        self.put_in(name.child(true), twin);
    }
}

// Whether there is no task.
fn is_bare(tasks: &Tree) -> bool
    requires { IsAgenda tasks.now }
    ensures { IsTrue result ↔ ((t : Task) → ¬ Has tasks.now t) }
{
    match tasks {
        Tree::Leaf => true,
        Tree::Fork(_) => false,
    }
}

// What a process has, once more.
fn twin_of(entry: &Entry, jobs: usize, stores: &mut Stores) -> Entry
    requires sound { IsSound entry.now }
    requires stocked { IsStocked stores.old }
    requires many { count entry.now.tasks ≡ jobs }
    requires some { jobs ≤ stores.old.spare_jobs }
    ensures cost { result.cost ≡ entry.now.cost }
    ensures resting { result.resting ≡ entry.now.resting }
    ensures tasks { (t : Task) → Has result.tasks t ↔ Has entry.now.tasks t }
    ensures sound { IsSound result }
    ensures jobs { stores.new.spare_jobs + jobs ≡ stores.old.spare_jobs }
    ensures stocked { IsStocked stores.new }
{
    Entry {
        cost: entry.cost,
        resting: entry.resting,
        tasks: stores.copy_tasks(&entry.tasks, jobs),
        tally: entry.tally,
        marks: entry.marks.copy(),
    }
}
