// What changes in what a process has.
ghost use Rattle.std.specs.Prelude.{ℕ, ◌≡◌, ◌⊎◌, ◌↔◌, ◌+◌, ◌-◌, ◌<◌, ◌≤◌, ◌^◌, min, false, IsTrue, IfSome, MatchOption, vec_len};
ghost use Rattle.mkb_pick.specs.Runs.{Holds};
ghost use Rattle.mkb_pick.specs.Trees.{HasKey, count};
ghost use Rattle.mkb_pick.specs.Tasks.{Has, IsAgenda, task_at};
ghost use Rattle.mkb_pick.specs.Marks.{reducing};
ghost use Rattle.mkb_pick.specs.declared.task.Work.TheVariants.{Reducing};
ghost use Rattle.mkb_pick.specs.Queues.{IsSound};

use crate::marks::Mark;
use crate::pool::Pool;
use crate::queue::Entry;
use crate::run::Run;
use crate::task::{Task, Work, work_of_key};
use crate::tree::{self, Tree};
use kb_node::NodeId;

impl Entry {
    /// Adds a task, and takes one node out of the pool at most.
    pub(crate) fn add(&mut self, task: &Task, pool: &mut Pool)
        requires sound { IsSound self.old }
        requires absent { ¬ Has self.old.tasks task.now }
        requires spare { 0 < vec_len pool.old.boxes }
        ensures cost { self.new.cost ≡ self.old.cost }
        ensures resting { self.new.resting ≡ self.old.resting }
        ensures tasks { (t : Task) → Has self.new.tasks t ↔ ((t ≡ task.now) ⊎ Has self.old.tasks t) }
        ensures sound { IsSound self.new }
        ensures used { vec_len pool.old.boxes ≤ vec_len pool.new.boxes + 1 }
    {
        add_to(&mut self.tasks, task, pool);
        self.tally = more(self.tally);
        if let Work::Reducing(n) = task.work {
            self.marks.add(n);
        }
    }

    /// Takes out a task: whether it was there.
    pub(crate) fn remove(&mut self, task: &Task, pool: &mut Pool) -> bool
        requires sound { IsSound self.old }
        ensures found { IsTrue result ↔ Has self.old.tasks task.now }
        ensures cost { self.new.cost ≡ self.old.cost }
        ensures resting { self.new.resting ≡ self.old.resting }
        ensures tasks { (t : Task) → Has self.new.tasks t ↔ (Has self.old.tasks t × ¬ (t ≡ task.now)) }
        ensures sound { IsSound self.new }
        ensures kept { vec_len pool.old.boxes ≤ vec_len pool.new.boxes }
    {
        if !remove_from(&mut self.tasks, task, pool) {
            return false;
        }
        self.tally = fewer(self.tally);
        if let Work::Reducing(n) = task.work {
            self.marks.remove(n);
        }
        true
    }

    /// How many tasks there are, or the greatest number where there are more.
    pub(crate) fn count(&self) -> usize
        requires { IsSound self.now }
        ensures { result ≡ min (count self.now.tasks) (2 ^ 64 - 1) }
    {
        match self.tally {
            Some(tally) => tally,
            None => tree::count(&self.tasks),
        }
    }

    /// Whether there is a reducing of the node.
    pub(crate) fn is_reducing(&self, n: NodeId) -> bool
        requires { IsSound self.now }
        ensures { IsTrue result ↔ ((w : ℕ) × Has self.now.tasks (reducing n.0 w)) }
    {
        match self.marks.at(n) {
            Mark::Absent => false,
            Mark::Single => true,
            Mark::Unknown => has_reducing(&self.tasks, n),
        }
    }
}

// One task more.
fn more(tally: Option<usize>) -> Option<usize>
    ensures { IfSome result (λ n. MatchOption tally ⊥ (λ m. n ≡ m + 1)) }
{
    tally?.checked_add(1)
}

// One task fewer.
fn fewer(tally: Option<usize>) -> Option<usize>
    ensures { IfSome result (λ n. MatchOption tally ⊥ (λ m. n + 1 ≡ m)) }
{
    tally?.checked_sub(1)
}

// Adds a task to those of a process.
#[tactic(auto, unfolding(crate::specs::Tasks::IsAgenda))]
fn add_to(tasks: &mut Tree, task: &Task, pool: &mut Pool)
    requires agenda { IsAgenda tasks.old }
    requires absent { ¬ Has tasks.old task.now }
    requires spare { 0 < vec_len pool.old.boxes }
    ensures items { (t : Task) → Has tasks.new t ↔ ((t ≡ task.now) ⊎ Has tasks.old t) }
    ensures agenda { IsAgenda tasks.new }
    ensures many { count tasks.new ≡ count tasks.old + 1 }
    ensures used { vec_len pool.old.boxes ≤ vec_len pool.new.boxes + 1 }
{
    tree::add(tasks, task.key(), pool);
}

// Takes a task out of those of a process: whether it was there.
#[tactic(auto, unfolding(crate::specs::Tasks::IsAgenda))]
fn remove_from(tasks: &mut Tree, task: &Task, pool: &mut Pool) -> bool
    requires { IsAgenda tasks.old }
    ensures found { IsTrue result ↔ Has tasks.old task.now }
    ensures items { (t : Task) → Has tasks.new t ↔ (Has tasks.old t × ¬ (t ≡ task.now)) }
    ensures agenda { IsAgenda tasks.new }
    ensures many { IsTrue result → count tasks.new + 1 ≡ count tasks.old }
    ensures same { result ≡ false → count tasks.new ≡ count tasks.old }
    ensures kept { vec_len pool.old.boxes ≤ vec_len pool.new.boxes }
{
    tree::remove(tasks, task.key(), pool)
}

/// Whether a task is there.
#[tactic(auto, unfolding(crate::specs::Tasks::IsAgenda))]
pub(crate) fn is_in(tasks: &Tree, task: &Task) -> bool
    requires { IsAgenda tasks.now }
    ensures { IsTrue result ↔ Has tasks.now task.now }
{
    tree::has(tasks, task.key())
}

// Whether there is a reducing of the node, by a look at each task.
fn has_reducing(tasks: &Tree, n: NodeId) -> bool
    ensures { IsTrue result ↔ ((k : ℕ) × HasKey tasks.now k × ((task_at k).work ≡ Reducing n)) }
{
    match tasks {
        Tree::Leaf => false,
        Tree::Fork(top) => {
            any_reducing(&top.run, n) || has_reducing(&top.left, n) || has_reducing(&top.right, n)
        }
    }
}

// Whether one of the keys of a run is that of a reducing of the node.
#[tactic(auto, unfolding(crate::specs::Runs::Holds))]
fn any_reducing(run: &Run, n: NodeId) -> bool
    ensures { IsTrue result ↔ ((k : ℕ) × Holds run.now k × ((task_at k).work ≡ Reducing n)) }
{
    let keys = run.keys.as_slice();
    for key in keys {
        if is_reducing(&work_of_key(*key), n) {
            return true;
        }
    }
    false
}

// Whether the work is reducing the node.
fn is_reducing(work: &Work, n: NodeId) -> bool
    ensures { IsTrue result ↔ (work.now ≡ Reducing n) }
{
    match *work {
        Work::Reducing(m) => m.0 == n.0,
        _ => false,
    }
}
