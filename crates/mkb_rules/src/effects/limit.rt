// Limits that jobs come to.
ghost use Rattle.std.specs.Prelude.{◌≡◌, IfOk, OnErr};
ghost use Rattle.mkb_model.specs.Effects.{limit_label, not_over, redex_label};
ghost use Rattle.mkb_model.specs.declared.proposed.Proposed.TheVariants.{Limit};
ghost use Rattle.mkb_rules.specs.Applying.{HasBudget, Commits};
ghost use Rattle.mkb_rules.specs.Named.{HasNamedJob, HasRedexRule, IsThere};

use crate::applied::Applied;
use crate::labels::only;
use crate::state::State;
use kb_label::{Labels, ListLabels};
use kb_node::{Job, LimitCause, NodeId};
use kb_term::{Found, Memory, RuleRef};
use std::alloc::{AllocError, Global};

impl State {
    /// A job came to a limit: the processes that it stops give up.
    ///
    /// # Errors
    ///
    /// Want of memory; the state is then as before.
    pub fn pass_limit(
        &mut self,
        alloc: Global,
        job: &Job,
        cause: &LimitCause,
    ) -> Result<Applied, Memory>
        requires budget { HasBudget self.old }
        requires named { HasNamedJob self.old job.now }
        requires redex { HasRedexRule self.old cause.now.redex }
        ensures ok { IfOk result (Commits self.old (Limit job.now cause.now) self.new) }
        ensures err { OnErr result (self.new ≡ self.old) }
    {
        let names = self.stopped_names(alloc, job, cause)?;
        self.give_up(alloc, cause.reason, &names)
    }

    /// The processes that a limit of the job stops, but for those that gave up before.
    pub(crate) fn stopped_names(
        &self,
        alloc: Global,
        job: &Job,
        cause: &LimitCause,
    ) -> Result<ListLabels, AllocError>
        requires named { HasNamedJob self.now job.now }
        requires redex { HasRedexRule self.now cause.now.redex }
        ensures { IfOk result (λ l. l ≡ not_over self.now (limit_label self.now job.now cause.now)) }
    {
        let names = self.limit_names(alloc, job, cause)?;
        self.not_over(alloc, &names)
    }

    // The processes that a limit of the job stops.
    fn limit_names(
        &self,
        alloc: Global,
        job: &Job,
        cause: &LimitCause,
    ) -> Result<ListLabels, AllocError>
        requires named { HasNamedJob self.now job.now }
        requires redex { HasRedexRule self.now cause.now.redex }
        ensures { IfOk result (λ l. l ≡ limit_label self.now job.now cause.now) }
    {
        match job {
            Job::Reduce(_, n) => self.redex_names(alloc, *n, cause.redex),
            Job::Orient(_, _) => Ok(ListLabels::new(alloc)),
            Job::Overlap(_, a, b) => self.overlap_names(alloc, *a, *b),
            Job::Close(p) => only(alloc, &self.log, p),
        }
    }

    // The processes on which the redex of a node acts, if there is one.
    fn redex_names(
        &self,
        alloc: Global,
        n: NodeId,
        redex: Option<(u8, RuleRef, Found)>,
    ) -> Result<ListLabels, AllocError>
        requires there { IsThere self.now n.0 }
        requires rule { HasRedexRule self.now redex }
        ensures { IfOk result (λ l. l ≡ redex_label self.now n.0 redex) }
    {
        match redex {
            None => Ok(ListLabels::new(alloc)),
            Some((side, rule, found)) => self.rewrite_names(alloc, n, side, rule, found),
        }
    }
}
