// Tasks: jobs without their processes.
ghost use Rattle.std.specs.Prelude.{◌≡◌, ◌∷◌, ◌+◌, ◌*◌, ◌^◌, ◌<◌, []};
ghost use Rattle.mkb_model.specs.Jobs.{clashes, is_free, process_of};
ghost use Rattle.mkb_pick.specs.Keys.{Fits, packed};
ghost use Rattle.mkb_pick.specs.Tasks.{job_of, work_of, work_kind, work_numbers, number_bounds, IsTaskKey, task_at};

use kb_label::Process;
use kb_node::{Job, NodeId};
use kb_term::RuleRef;

// How many directions there are for a rule.
const DIRECTIONS: u32 = 1 << 8;

// How many rules there are, by number and direction.
const RULES: u64 = 1 << 24;

// How many weights there are.
const WEIGHTS: u64 = 1 << 32;

// How many numbers there are for the work of a kind.
const NUMBERS: u128 = 1 << 48;

/// How many keys there are for the tasks of a kind.
pub(crate) const KINDS: u128 = 1 << 80;

/// What a job does, for whichever process.
#[derive(Clone, Copy)]
pub(crate) enum Work {
    Reducing(NodeId),
    Orienting(NodeId),
    Overlapping(RuleRef, RuleRef),
    Closing,
}

impl Work {
    pub(crate) fn of(job: &Job) -> Work
        ensures { result ≡ work_of job.now }
    {
        match *job {
            Job::Reduce(_, n) => Work::Reducing(n),
            Job::Orient(_, n) => Work::Orienting(n),
            Job::Overlap(_, a, b) => Work::Overlapping(a, b),
            Job::Close(_) => Work::Closing,
        }
    }

    /// The job of the process.
    pub(crate) fn job(&self, process: &Process) -> Job
        ensures { result ≡ job_of process.now self.now }
    {
        match *self {
            Work::Reducing(n) => Job::Reduce(*process, n),
            Work::Orienting(n) => Job::Orient(*process, n),
            Work::Overlapping(a, b) => Job::Overlap(*process, a, b),
            Work::Closing => Job::Close(*process),
        }
    }

    /// The place of the kind among the four.
    pub(crate) fn kind(&self) -> u8
        ensures { result ≡ work_kind self.now }
    {
        match self {
            Work::Reducing(_) => 0,
            Work::Orienting(_) => 1,
            Work::Overlapping(_, _) => 2,
            Work::Closing => 3,
        }
    }

    // The numbers, as one.
    fn number(&self) -> u64
        ensures fits { Fits number_bounds (work_numbers self.now) }
        ensures number { result ≡ packed number_bounds (work_numbers self.now) }
    {
        match *self {
            Work::Reducing(n) | Work::Orienting(n) => u64::from(rule_number(n.0, 0)) * RULES,
            Work::Overlapping(a, b) => {
                let first = u64::from(rule_number(a.node, a.dir));
                first * RULES + u64::from(rule_number(b.node, b.dir))
            }
            Work::Closing => 0,
        }
    }
}

// The number and the direction of a rule, as one.
fn rule_number(node: u16, dir: u8) -> u32
    ensures number { result ≡ node * 2 ^ 8 + dir }
    ensures node { node < 2 ^ 16 }
    ensures dir { dir < 2 ^ 8 }
{
    u32::from(node) * DIRECTIONS + u32::from(dir)
}

/// A job of a process with its weight.
#[derive(Clone, Copy)]
pub(crate) struct Task {
    pub(crate) work: Work,
    pub(crate) weight: u32,
}

impl Task {
    /// The key: kind, weight and numbers as one, by which tasks are ordered.
    pub(crate) fn key(&self) -> u128
        ensures { IsTaskKey result self.now }
    {
        let weight = self.weight;
        let front = u64::from(self.work.kind()) * WEIGHTS + u64::from(weight);
        u128::from(front) * NUMBERS + u128::from(self.work.number())
    }

    /// The task that has the key.
    pub(crate) fn of_key(key: u128) -> Task
        ensures { result ≡ task_at key }
    {
        Task {
            work: work_of_key(key),
            weight: (key / NUMBERS % (1 << 32)) as u32,
        }
    }
}

/// The work of the task that has the key.
pub(crate) fn work_of_key(key: u128) -> Work
    ensures { result ≡ (task_at key).work }
{
    let first = (key / (1 << 32) % (1 << 16)) as u16;
    match key / KINDS {
        0 => Work::Reducing(NodeId(first)),
        1 => Work::Orienting(NodeId(first)),
        2 => {
            let a = RuleRef {
                node: first,
                dir: (key / (1 << 24) % (1 << 8)) as u8,
            };
            let b = RuleRef {
                node: (key / (1 << 8) % (1 << 16)) as u16,
                dir: (key % (1 << 8)) as u8,
            };
            Work::Overlapping(a, b)
        }
        _ => Work::Closing,
    }
}

/// The process that the job is for.
pub(crate) fn process_of(job: &Job) -> Process
    ensures { result ≡ process_of job.now }
{
    match *job {
        Job::Reduce(process, _)
        | Job::Orient(process, _)
        | Job::Overlap(process, _, _)
        | Job::Close(process) => process,
    }
}

// Whether two jobs may not be in flight together.
fn is_clash(job: &Job, other: &Job) -> bool
    ensures { result ≡ clashes job.now other.now }
{
    match (job, other) {
        (Job::Reduce(_, n), Job::Reduce(_, m)) => n.0 == m.0,
        (Job::Orient(p, _), Job::Orient(q, _)) => *p == *q,
        (Job::Orient(p, _), Job::Close(q)) => *p == *q,
        (Job::Close(p), Job::Orient(q, _)) => *p == *q,
        (Job::Close(p), Job::Close(q)) => *p == *q,
        (Job::Overlap(_, a, b), Job::Overlap(_, c, d)) => { *a == *c && *b == *d }
        _ => false,
    }
}

/// Whether the job clashes with none of those in flight.
#[tactic(auto, using(std::proofs::lemmas::List::Folds::list_any_more, std::proofs::lemmas::List::Folds::list_any_at))]
pub(crate) fn is_free(job: &Job, flight: &[Job]) -> bool
    ensures { result ≡ is_free flight.now job.now }
{
    for other in flight {
        if is_clash(job, other) {
            return false;
        }
    }
    true
}
