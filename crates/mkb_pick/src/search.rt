// The search for the next job.
ghost use Rattle.std.specs.Prelude.{ℕ, ◌≡◌, ◌↔◌, ◌<◌, ◌+◌, true, false, length, IsTrue, MatchOption};
ghost use Rattle.mkb_pick.specs.Runs.{Precedes, Holds, IsFilled};
ghost use Rattle.mkb_pick.specs.Trees.{HasKey, IsOrdered};
ghost use Rattle.mkb_model.specs.Jobs.{is_free};
ghost use Rattle.mkb_pick.specs.Tasks.{IsAgenda, job_of, IsWithin, is_open};
ghost use Rattle.mkb_pick.specs.Queues.{IsQueue};
ghost use Rattle.mkb_pick.specs.Firsts.{IsFirst, IsOffer, IsLeast, IsNext, IsChoice};

use crate::queue::Queue;
use crate::run::Run;
use crate::task::{KINDS, Task, Work, is_free, work_of_key};
use crate::tree::Tree;
use kb_label::Process;
use kb_node::Job;

// Whether the work of the process clashes with nothing in flight. Where nothing is, no job is made for it.
fn is_open(work: &Work, process: &Process, flight: &[Job]) -> bool
    ensures { result ≡ is_free flight.now (job_of process.now work.now) }
{
    flight.is_empty() || is_free(&work.job(process), flight)
}

/// The first task of a kind from low to high that clashes with nothing in flight.
fn first_between(tasks: &Tree, process: &Process, flight: &[Job], low: u8, high: u8) -> Option<Task>
    requires { IsAgenda tasks.now }
    ensures { IsFirst tasks.now (λ t. IsWithin low high t × (is_open flight.now process.now t ≡ true)) result }
{
    let open = Open {
        process,
        flight,
        low: u128::from(low) * KINDS,
        high: (u128::from(high) + 1) * KINDS,
    };
    match open.first(tasks) {
        Some(key) => Some(Task::of_key(key)),
        None => None,
    }
}

// What is looked for: keys from low on and before high, of tasks that clash with nothing in flight.
#[derive(Clone, Copy)]
struct Open<'a> {
    process: &'a Process,
    flight: &'a [Job],
    low: u128,
    high: u128,
}

impl Open<'_> {
    // The least key of the tree that is looked for.
    fn first(&self, tasks: &Tree) -> Option<u128>
        requires { IsOrdered tasks.now }
        ensures { IsLeast (HasKey tasks.now) (IsOffer self.now.flight.now self.now.process.now self.now.low self.now.high) result }
    {
        let Tree::Fork(top) = tasks else {
            return None;
        };
        if self.is_left_of(&top.run) {
            if let Some(key) = self.first(&top.left) {
                return Some(key);
            }
        }
        if let Some(key) = self.first_of(&top.run) {
            return Some(key);
        }
        if self.is_right_of(&top.run) {
            return self.first(&top.right);
        }
        None
    }

    // Whether what is looked for may be less than the keys of the run.
    #[tactic(auto, unfolding(crate::specs::Runs::Precedes, crate::specs::Firsts::IsOffer))]
    fn is_left_of(&self, run: &Run) -> bool
        requires { IsFilled run.now }
        ensures { result ≡ false → (k : ℕ) → ((m : ℕ) → Holds run.now m → Precedes k m) → ¬ IsOffer self.now.flight.now self.now.process.now self.now.low self.now.high k }
    {
        self.low < run.first()
    }

    // Whether what is looked for may be greater than the keys of the run.
    #[tactic(auto, unfolding(crate::specs::Runs::Precedes, crate::specs::Firsts::IsOffer))]
    fn is_right_of(&self, run: &Run) -> bool
        requires { IsFilled run.now }
        ensures { result ≡ false → (k : ℕ) → ((m : ℕ) → Holds run.now m → Precedes m k) → ¬ IsOffer self.now.flight.now self.now.process.now self.now.low self.now.high k }
    {
        run.last() < self.high
    }

    // The least key of the run that is looked for.
    fn first_of(&self, run: &Run) -> Option<u128>
        requires { IsFilled run.now }
        ensures { IsLeast (Holds run.now) (IsOffer self.now.flight.now self.now.process.now self.now.low self.now.high) result }
    {
        let keys = run.keys.as_slice();
        for key in keys {
            if self.has(*key) {
                return Some(*key);
            }
        }
        None
    }

    // Whether the key is looked for.
    #[tactic(auto, unfolding(crate::specs::Firsts::IsOffer))]
    fn has(&self, key: u128) -> bool
        ensures { IsTrue result ↔ IsOffer self.now.flight.now self.now.process.now self.now.low self.now.high key }
    {
        self.low <= key && key < self.high && is_open(&work_of_key(key), self.process, self.flight)
    }
}

/// The first task of the process that clashes with nothing in flight.
///
/// Where an Orient or a Close of the process is in flight, its Orients and its Close are passed over in one step.
fn first_task(tasks: &Tree, process: &Process, flight: &[Job]) -> Option<Task>
    requires { IsAgenda tasks.now }
    ensures { IsFirst tasks.now (λ t. is_open flight.now process.now t ≡ true) result }
{
    if is_open(&Work::Closing, process, flight) {
        return first_between(tasks, process, flight, 0, 3);
    }
    match first_between(tasks, process, flight, 0, 0) {
        Some(task) => Some(task),
        None => first_between(tasks, process, flight, 2, 2),
    }
}

/// The first task of the least process so far: where that stands, and what it costs.
#[derive(Clone, Copy)]
pub(crate) struct Choice {
    pub(crate) place: usize,
    pub(crate) cost: u64,
    pub(crate) task: Task,
}

/// The first job of the first process that does not rest and has one that clashes with nothing in flight.
pub(crate) fn next_job(queue: &Queue, flight: &[Job]) -> Option<Job>
    requires { IsQueue queue.now }
    ensures { IsNext queue.now flight.now result }
{
    let choice = best_choice(queue, flight)?;
    Some(choice.task.work.job(&queue.names[choice.place]))
}

// The first task of the first process that is ready.
fn best_choice(queue: &Queue, flight: &[Job]) -> Option<Choice>
    requires { IsQueue queue.now }
    ensures { IsChoice queue.now flight.now (length queue.now.names.items) result }
{
    let mut best = None;
    for place in 0..queue.entries.len() {
        consider(queue, place, flight, &mut best);
    }
    best
}

// Chooses the process at a place, where it is ready and comes before the choice so far. As names rise along the list, it
// does only where it costs less.
fn consider(queue: &Queue, place: usize, flight: &[Job], best: &mut Option<Choice>)
    requires queue { IsQueue queue.now }
    requires within { place < length queue.now.names.items }
    requires so_far { IsChoice queue.now flight.now place best.old }
    ensures { IsChoice queue.now flight.now (place + 1) best.new }
{
    let entry = &queue.entries[place];
    if entry.resting {
        return;
    }
    if !is_cheaper(entry.cost, best) {
        return;
    }
    let Some(task) = first_task(&entry.tasks, &queue.names[place], flight) else {
        return;
    };
    *best = Some(Choice {
        place,
        cost: entry.cost,
        task,
    });
}

// Whether the cost is less than that of the choice, or there is none.
fn is_cheaper(cost: u64, best: &Option<Choice>) -> bool
    ensures { MatchOption best.now (IsTrue result) (λ c. IsTrue result ↔ (cost < c.cost)) }
{
    match best {
        Some(choice) => cost < choice.cost,
        None => true,
    }
}
