// The agenda.
ghost use Rattle.std.specs.Prelude.{ℕ, Bool, ◌≡◌, ◌⊎◌, ◌↔◌, ◌+◌, ◌-◌, ◌<◌, ◌≤◌, max, List, [], length, Contains, true, false, IsTrue, OnOk, OnErr, IsOk};
ghost use Rattle.kb_label.specs.Names.{Name, child};
ghost use Rattle.kb_node.specs.declared.job.Job.{Job};
ghost use Rattle.kb_node.specs.declared.job.Job.TheVariants.{Reduce};
ghost use Rattle.mkb_model.specs.Jobs.{process_of};
ghost use Rattle.mkb_pick.specs.Listings.{Listed, IsListed, IsProcess, HasJob, IsLeastOffered, SetsCost, SetsRest, SplitsProcess, SplitsJobs};

use crate::queue::{Entry, Queue};
use crate::search::next_job;
use crate::stores::Stores;
use crate::task::{Task, Work, process_of};
use kb_label::{MAX_BITS, Process};
use kb_node::{Job, NodeId};
use kb_term::Memory;
use std::alloc::Global;
use std::marker::Model;

/// The jobs that are due, by their processes, and which of them is next.
///
/// Contracts see the listed processes in the order of their names, each with its cost, whether it rests, and its jobs with
/// their weights; and two spare numbers, for how many more jobs and processes there is room. Behind it stand the names in
/// their order, and for each process a tree of its jobs by keys made of kind, weight and numbers, up to 32 of them in a node,
/// how many there are, and a mark of each node whose reducing it had. A call finds its process by a search that begins where
/// the last change was, and goes down its tree; `list`, `unlist` and `split` move the processes behind; `split` and `unlist`
/// also go over the jobs of their process. `remove` keeps the memory of a node that it emptied for the next ones, of up to
/// 1,024 nodes; `unlist` gives it back. A spare job is a spare node.
#[derive(Drop)]
pub struct Agenda {
    alloc: Global,
    queue: Queue,
    stores: Stores,
}

impl Model for Agenda {
    ghost use Rattle.mkb_pick.specs.Listings.{Listing};
    ghost use Rattle.mkb_pick.specs.Views.{listing_of};
    ghost use Rattle.mkb_pick.specs.Queues.{IsQueue};
    ghost use Rattle.mkb_pick.specs.Stores.{IsStocked};

    ghost Value = { Listing };

    ghost view = { λ a. listing_of a.queue a.stores };

    ghost invariant = { λ a. IsQueue a.queue × IsStocked a.stores };
}

impl Agenda {
    /// Nothing is listed, and there is room for nothing. It takes no memory.
    pub fn new(alloc: Global) -> Self
        ensures { result ≡ record { processes = []; spare_jobs = 0; spare_processes = 0 } }
    {
        Agenda {
            alloc,
            queue: Queue::new(alloc),
            stores: Stores::new(alloc),
        }
    }

    /// Makes room for so many more jobs and processes, unless there is as much.
    ///
    /// # Errors
    ///
    /// Want of memory; the agenda is then as it was.
    pub fn reserve(&mut self, jobs: u32, processes: u32) -> Result<(), Memory>
        ensures ok { OnOk result (self.new ≡ record { processes = self.old.processes; spare_jobs = max self.old.spare_jobs jobs; spare_processes = max self.old.spare_processes processes }) }
        ensures err { OnErr result (self.new ≡ self.old) }
        ensures room { jobs ≤ self.old.spare_jobs → processes ≤ self.old.spare_processes → IsOk result }
    {
        self.stores.stock(
            self.alloc,
            &mut self.queue,
            jobs as usize,
            processes as usize,
        )
    }

    /// Whether a process is listed. It takes no memory.
    pub fn is_listed(&self, process: &Process) -> bool
        ensures { IsTrue result ↔ IsProcess self.now.processes process.now }
    {
        self.queue.is_seated(process)
    }

    /// Lists a process, which does not rest and has no job.
    ///
    /// # Errors
    ///
    /// Want of memory, where there is no room for a process; the agenda is then as it was.
    pub fn list(&mut self, process: Process, cost: u64) -> Result<(), Memory>
        requires { ¬ IsProcess self.old.processes process }
        ensures processes { OnOk result ((n : Name) (c : ℕ) (r : Bool) → IsListed self.new.processes n c r ↔ (((n ≡ process) × (c ≡ cost) × (r ≡ false)) ⊎ IsListed self.old.processes n c r)) }
        ensures jobs { (j : Job) (w : ℕ) → HasJob self.new.processes j w ↔ HasJob self.old.processes j w }
        ensures spare_jobs { self.new.spare_jobs ≡ self.old.spare_jobs }
        ensures spare_processes { OnOk result (self.new.spare_processes ≡ self.old.spare_processes - 1) }
        ensures err { OnErr result (self.new ≡ self.old) }
        ensures room { 0 < self.old.spare_processes → IsOk result }
    {
        self.queue.stock(1)?;
        self.queue.put_in(process, Entry::awake(self.alloc, cost));
        Ok(())
    }

    /// Adds a job of a listed process, under its weight. Each job has one weight, which `remove` is told again.
    ///
    /// # Errors
    ///
    /// Want of memory, where there is no room for a job; the agenda is then as it was.
    pub fn add(&mut self, job: &Job, weight: u32) -> Result<(), Memory>
        requires listed { IsProcess self.old.processes (process_of job.now) }
        requires absent { ¬ HasJob self.old.processes job.now weight }
        ensures processes { (n : Name) (c : ℕ) (r : Bool) → IsListed self.new.processes n c r ↔ IsListed self.old.processes n c r }
        ensures jobs { OnOk result ((j : Job) (w : ℕ) → HasJob self.new.processes j w ↔ (((j ≡ job.now) × (w ≡ weight)) ⊎ HasJob self.old.processes j w)) }
        ensures spare_jobs { OnOk result (self.new.spare_jobs ≡ self.old.spare_jobs - 1) }
        ensures spare_processes { self.new.spare_processes ≡ self.old.spare_processes }
        ensures err { OnErr result (self.new ≡ self.old) }
        ensures room { 0 < self.old.spare_jobs → IsOk result }
    {
        self.stores.stock(self.alloc, &mut self.queue, 1, 0)?;
        let task = Task {
            work: Work::of(job),
            weight,
        };
        self.stores.spare_jobs -= 1;
        self.queue
            .add_task(&process_of(job), &task, &mut self.stores.jobs);
        Ok(())
    }

    /// Takes out a job that was added under the weight: whether it was there. It takes no memory.
    pub fn remove(&mut self, job: &Job, weight: u32) -> bool
        ensures found { IsTrue result ↔ HasJob self.old.processes job.now weight }
        ensures processes { (n : Name) (c : ℕ) (r : Bool) → IsListed self.new.processes n c r ↔ IsListed self.old.processes n c r }
        ensures jobs { (j : Job) (w : ℕ) → HasJob self.new.processes j w ↔ (HasJob self.old.processes j w × ¬ ((j ≡ job.now) × (w ≡ weight))) }
        ensures spare_jobs { self.new.spare_jobs ≡ self.old.spare_jobs }
        ensures spare_processes { self.new.spare_processes ≡ self.old.spare_processes }
    {
        let task = Task {
            work: Work::of(job),
            weight,
        };
        self.queue
            .remove_task(&process_of(job), &task, &mut self.stores.jobs)
    }

    /// Whether a job is listed under the weight. It takes no memory.
    pub fn has(&self, job: &Job, weight: u32) -> bool
        ensures { IsTrue result ↔ HasJob self.now.processes job.now weight }
    {
        let task = Task {
            work: Work::of(job),
            weight,
        };
        self.queue.has_task(&process_of(job), &task)
    }

    /// Whether reducing the node is listed for the process, under whichever weight. It takes no memory, and goes over the
    /// jobs of the process only where the node was listed under two weights, or memory was wanting for its mark.
    pub fn is_reducing(&self, process: &Process, n: NodeId) -> bool
        ensures { IsTrue result ↔ ((w : ℕ) × HasJob self.now.processes (Reduce process.now n) w) }
    {
        self.queue.is_reducing(process, n)
    }

    /// Whether no job of a process is listed. It takes no memory.
    pub fn is_idle(&self, process: &Process) -> bool
        ensures { IsTrue result ↔ ((j : Job) (w : ℕ) → process_of j ≡ process.now → ¬ HasJob self.now.processes j w) }
    {
        self.queue.is_idle(process)
    }

    /// Gives a listed process another cost. It takes no memory.
    pub fn set_cost(&mut self, process: &Process, cost: u64)
        requires { IsProcess self.old.processes process.now }
        ensures processes { SetsCost self.old.processes process.now cost self.new.processes }
        ensures jobs { (j : Job) (w : ℕ) → HasJob self.new.processes j w ↔ HasJob self.old.processes j w }
        ensures spare_jobs { self.new.spare_jobs ≡ self.old.spare_jobs }
        ensures spare_processes { self.new.spare_processes ≡ self.old.spare_processes }
    {
        self.queue.set_cost(process, cost);
    }

    /// Lets a listed process rest: its jobs stay, and none of them is next. It takes no memory.
    pub fn rest(&mut self, process: &Process)
        requires { IsProcess self.old.processes process.now }
        ensures processes { SetsRest self.old.processes process.now true self.new.processes }
        ensures jobs { (j : Job) (w : ℕ) → HasJob self.new.processes j w ↔ HasJob self.old.processes j w }
        ensures spare_jobs { self.new.spare_jobs ≡ self.old.spare_jobs }
        ensures spare_processes { self.new.spare_processes ≡ self.old.spare_processes }
    {
        self.queue.set_resting(process, true);
    }

    /// Wakes a listed process. It takes no memory.
    pub fn wake(&mut self, process: &Process)
        requires { IsProcess self.old.processes process.now }
        ensures processes { SetsRest self.old.processes process.now false self.new.processes }
        ensures jobs { (j : Job) (w : ℕ) → HasJob self.new.processes j w ↔ HasJob self.old.processes j w }
        ensures spare_jobs { self.new.spare_jobs ≡ self.old.spare_jobs }
        ensures spare_processes { self.new.spare_processes ≡ self.old.spare_processes }
    {
        self.queue.set_resting(process, false);
    }

    /// Takes a listed process off the list, with its jobs. It takes no memory.
    pub fn unlist(&mut self, process: &Process)
        requires { IsProcess self.old.processes process.now }
        ensures processes { (n : Name) (c : ℕ) (r : Bool) → IsListed self.new.processes n c r ↔ (IsListed self.old.processes n c r × ¬ (n ≡ process.now)) }
        ensures jobs { (j : Job) (w : ℕ) → HasJob self.new.processes j w ↔ (HasJob self.old.processes j w × ¬ (process_of j ≡ process.now)) }
        ensures spare_jobs { self.new.spare_jobs ≡ self.old.spare_jobs }
        ensures spare_processes { self.new.spare_processes ≡ self.old.spare_processes }
    {
        self.queue.strike(process);
    }

    /// Puts the two children of a listed process in its place: each has its cost, rests where it rests, and has its jobs.
    ///
    /// # Errors
    ///
    /// Want of memory, where there is no room for a process and as many jobs as the process has; the agenda is then as it was.
    pub fn split(&mut self, process: &Process) -> Result<(), Memory>
        requires listed { IsProcess self.old.processes process.now }
        requires short { length process.now < MAX_BITS }
        requires free { (bit : Bool) → ¬ IsProcess self.old.processes (child process.now bit) }
        ensures processes { OnOk result (SplitsProcess self.old.processes process.now self.new.processes) }
        ensures jobs { OnOk result (SplitsJobs self.old.processes process.now self.new.processes) }
        ensures spare_jobs { OnOk result ((l : Listed) → Contains self.old.processes l → l.name ≡ process.now → self.new.spare_jobs ≡ self.old.spare_jobs - length l.jobs) }
        ensures spare_processes { OnOk result (self.new.spare_processes ≡ self.old.spare_processes - 1) }
        ensures err { OnErr result (self.new ≡ self.old) }
        ensures room { (l : Listed) → Contains self.old.processes l → l.name ≡ process.now → length l.jobs ≤ self.old.spare_jobs → 0 < self.old.spare_processes → IsOk result }
    {
        let jobs = self.queue.count_of(process);
        if jobs == usize::MAX {
            // So many nodes cannot be set aside.
            return Err(Memory);
        }
        self.stores.stock(self.alloc, &mut self.queue, jobs, 1)?;
        self.queue.fork(process, jobs, &mut self.stores);
        Ok(())
    }

    /// The least job, by the cost of its process, the name of its process, its kind, its weight and the numbers in it,
    /// among those that clash with none in flight and whose process does not rest; none where there is none.
    /// It takes no memory.
    ///
    /// It goes over the processes once, and into the jobs of those that don't rest and cost less than the best one so far.
    pub fn next(&self, flight: &[Job]) -> Option<Job>
        ensures { IsLeastOffered self.now.processes flight.now result }
    {
        next_job(&self.queue, flight)
    }
}
