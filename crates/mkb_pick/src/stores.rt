// Nodes that are set aside for jobs.
ghost use Rattle.std.specs.Prelude.{◌≡◌, ◌↔◌, ◌+◌, ◌<◌, ◌≤◌, max, OnOk, OnErr, IsOk};
ghost use Rattle.mkb_pick.specs.Trees.{count};
ghost use Rattle.mkb_pick.specs.Tasks.{Has, IsAgenda};
ghost use Rattle.mkb_pick.specs.declared.task.Task.{Task};
ghost use Rattle.mkb_pick.specs.Queues.{IsQueue};
ghost use Rattle.mkb_pick.specs.Stores.{IsStocked};

use crate::pool::Pool;
use crate::queue::Queue;
use crate::tree::{Tree, copy};
use kb_term::Memory;
use std::alloc::Global;

/// Nodes that are set aside. Of those at hand so many are told: after a refusal there may be more.
#[derive(Drop)]
pub(crate) struct Stores {
    pub(crate) jobs: Pool,
    pub(crate) spare_jobs: usize,
}

impl Stores {
    /// Nothing is set aside.
    pub(crate) fn new(alloc: Global) -> Stores
        ensures jobs { result.spare_jobs ≡ 0 }
        ensures stocked { IsStocked result }
    {
        Stores {
            jobs: Pool::new(alloc),
            spare_jobs: 0,
        }
    }

    /// Sets nodes aside until there are so many, and makes room in the queue for so many processes.
    pub(crate) fn stock(
        &mut self,
        alloc: Global,
        queue: &mut Queue,
        jobs: usize,
        processes: usize,
    ) -> Result<(), Memory>
        requires stocked { IsStocked self.old }
        requires queue { IsQueue queue.old }
        ensures names { queue.new.names.items ≡ queue.old.names.items }
        ensures entries { queue.new.entries.items ≡ queue.old.entries.items }
        ensures ok { OnOk result ((self.new.spare_jobs ≡ max self.old.spare_jobs jobs) × (queue.new.spare ≡ max queue.old.spare processes)) }
        ensures err { OnErr result ((self.new.spare_jobs ≡ self.old.spare_jobs) × (queue.new.spare ≡ queue.old.spare)) }
        ensures room { jobs ≤ self.old.spare_jobs → processes ≤ queue.old.spare → IsOk result }
        ensures stocked { IsStocked self.new }
        ensures queue { IsQueue queue.new }
    {
        self.jobs.fill(alloc, jobs)?;
        queue.stock(processes)?;
        self.spare_jobs = self.spare_jobs.max(jobs);
        Ok(())
    }

    /// A tree of the same tasks, of which there are so many.
    pub(crate) fn copy_tasks(&mut self, tasks: &Tree, jobs: usize) -> Tree
        requires stocked { IsStocked self.old }
        requires agenda { IsAgenda tasks.now }
        requires many { count tasks.now ≡ jobs }
        requires some { jobs ≤ self.old.spare_jobs }
        ensures tasks { (t : Task) → Has result t ↔ Has tasks.now t }
        ensures agenda { IsAgenda result }
        ensures copied { count result ≡ count tasks.now }
        ensures jobs { self.new.spare_jobs + jobs ≡ self.old.spare_jobs }
        ensures stocked { IsStocked self.new }
    {
        self.spare_jobs -= jobs;
        copy(tasks, &mut self.jobs)
    }
}
