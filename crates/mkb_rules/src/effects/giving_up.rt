// Processes that give up.
ghost use Rattle.std.specs.Prelude.{◌≡◌, IfOk, OnErr};
ghost use Rattle.mkb_model.specs.Effects.{give_up as gives_up, counted, not_over as those_not_over};
ghost use Rattle.mkb_rules.specs.Applying.{HasBudget};

use crate::applied::Applied;
use crate::effects::label::counted_up;
use crate::labels::copy_of;
use crate::state::{GivenUp, State};
use kb_label::{Labels, ListLabels, NameLog, Reason};
use kb_term::Memory;
use std::alloc::{AllocError, Global};

impl State {
    /// At a limit these processes give up, but for those that did before; the commit is counted.
    ///
    /// # Errors
    ///
    /// Want of memory; the state is then as before.
    pub(crate) fn give_up(
        &mut self,
        alloc: Global,
        reason: Reason,
        names: &ListLabels,
    ) -> Result<Applied, Memory>
        requires { HasBudget self.old }
        ensures ok { IfOk result (λ answer. (self.new ≡ counted (gives_up reason names.now self.old)) × (answer ≡ Applied.Over reason)) }
        ensures err { OnErr result (self.new ≡ self.old) }
    {
        let fresh = self.not_over(alloc, names)?;
        self.over.join(&self.log, reason, &fresh)?;
        self.commits = counted_up(self.commits, self.settings.budget);
        Ok(Applied::Over(reason))
    }

    /// Those of the processes that have not given up.
    pub(crate) fn not_over(
        &self,
        alloc: Global,
        names: &ListLabels,
    ) -> Result<ListLabels, AllocError>
        ensures { IfOk result (λ l. l ≡ those_not_over self.now names.now) }
    {
        let mut fresh = copy_of(alloc, &self.log, names)?;
        self.over.take_out_of(&self.log, &mut fresh)?;
        Ok(fresh)
    }
}

impl GivenUp {
    ghost use Rattle.std.specs.Prelude.{◌≡◌, OnOk, OnErr, map, filter, not, if◌then◌else◌};
    ghost use Rattle.std.specs.List.{list_any};
    ghost use Rattle.kb_label.specs.Names.{has, join};
    ghost use Rattle.mkb_model.specs.Plain.{GivenUp as OverFor};
    ghost use Rattle.mkb_model.specs.Effects.{reason_eq};
    ghost use Rattle.mkb_rules.specs.Over.{lists_of};

    /// These processes gave up for the reason too.
    pub(crate) fn join(
        &mut self,
        log: &NameLog,
        reason: Reason,
        names: &ListLabels,
    ) -> Result<(), AllocError>
        ensures ok { OnOk result (lists_of self.new ≡ map (λ (g : OverFor). if reason_eq g.reason reason then record g { names = join g.names names.now } else g) (lists_of self.old)) }
        ensures err { OnErr result (self.new ≡ self.old) }
    {
        match reason {
            Reason::Nodes => self.nodes.join(log, names),
            Reason::Processes => self.processes.join(log, names),
            Reason::Size => self.size.join(log, names),
            Reason::Depth => self.depth.join(log, names),
            Reason::Variables => self.variables.join(log, names),
            Reason::Steps => self.steps.join(log, names),
        }
    }

    /// Takes the processes out that gave up.
    pub(crate) fn take_out_of(
        &self,
        log: &NameLog,
        names: &mut ListLabels,
    ) -> Result<(), AllocError>
        ensures { OnOk result (names.new ≡ filter (λ p. not (list_any (λ (g : OverFor). has g.names p) (lists_of self.now))) names.old) }
    {
        names.minus(log, &self.nodes)?;
        names.minus(log, &self.processes)?;
        names.minus(log, &self.size)?;
        names.minus(log, &self.depth)?;
        names.minus(log, &self.variables)?;
        names.minus(log, &self.steps)
    }
}
