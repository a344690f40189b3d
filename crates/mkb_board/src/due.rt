// Which jobs are due.
ghost use Rattle.std.specs.Prelude.{◌≡◌, ◌<◌, length};
ghost use Rattle.kb_node.specs.declared.job.Job.TheVariants as jobs;
ghost use Rattle.mkb_model.specs.Jobs.{clashes, is_free};
ghost use Rattle.mkb_model.specs.DueJobs.{is_work_due};
ghost use Rattle.mkb_board.specs.Choosing.{jobs_of};

use crate::choosing::is_rule;
use kb_label::Process;
use kb_node::Job;
use kb_term::RuleRef;
use mkb_model::Ticket;
use mkb_rules::{State, is_ordered};

// Whether the process has both rules, in this order, and has not overlapped them.
pub(crate) fn is_overlap_due(state: &State, p: &Process, a: RuleRef, c: RuleRef) -> bool
    requires first { a.node < length state.now.nodes }
    requires second { c.node < length state.now.nodes }
    ensures { result ≡ is_work_due state.now (jobs.Overlap p.now a c) }
{
    (is_rule(state, p, a) && is_rule(state, p, c)) && (is_ordered(a, c) && !state.is_done(p, a, c))
}

// Whether the job clashes with none in flight.
pub(crate) fn is_free(flight: &[Ticket], job: &Job) -> bool
    ensures { result ≡ is_free (jobs_of flight.now) job.now }
{
    for i in 0..flight.len() {
        if clashes(job, &flight[i].job) {
            return false;
        }
    }
    true
}

// Whether two jobs may not be in flight together.
fn clashes(a: &Job, b: &Job) -> bool
    ensures { result ≡ clashes a.now b.now }
{
    match (a, b) {
        (Job::Reduce(_, n), Job::Reduce(_, m)) => n.0 == m.0,
        (Job::Orient(p, _), Job::Orient(q, _)) => *p == *q,
        (Job::Orient(p, _), Job::Close(q)) => *p == *q,
        (Job::Close(p), Job::Orient(q, _)) => *p == *q,
        (Job::Close(p), Job::Close(q)) => *p == *q,
        (Job::Overlap(_, c, d), Job::Overlap(_, e, f)) => *c == *e && *d == *f,
        _ => false,
    }
}
