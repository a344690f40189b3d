// Facts that become known, and processes that are closed.
ghost use Rattle.std.specs.Prelude.{◌≡◌, IfOk, OnErr, IsTrue};
ghost use Rattle.kb_label.specs.Names.{has};
ghost use Rattle.mkb_model.specs.declared.proposed.Proposed.TheVariants.{Facts, Closed};
ghost use Rattle.mkb_rules.specs.Applying.{HasBudget, Commits};

use crate::applied::Applied;
use crate::effects::label::counted_up;
use crate::state::State;
use kb_label::{Labels, Process};
use kb_node::Fact;
use kb_term::Memory;
use std::alloc::Global;

impl State {
    /// Makes facts known.
    ///
    /// # Errors
    ///
    /// Want of memory; the state is then as before.
    pub fn know(&mut self, _alloc: Global, facts: &[Fact]) -> Result<Applied, Memory>
        requires { HasBudget self.old }
        ensures ok { IfOk result (Commits self.old (Facts facts.now) self.new) }
        ensures err { OnErr result (self.new ≡ self.old) }
    {
        self.nodes.are_few();
        self.facts.extend(facts)?;
        self.commits = counted_up(self.commits, self.settings.budget);
        Ok(Applied::Done)
    }

    /// Closes a process: it is complete.
    ///
    /// # Errors
    ///
    /// Want of memory; the state is then as before.
    pub fn close(&mut self, _alloc: Global, p: &Process) -> Result<Applied, Memory>
        requires budget { HasBudget self.old }
        requires lives { IsTrue (has self.old.living p.now) }
        ensures ok { IfOk result (Commits self.old (Closed p.now) self.new) }
        ensures err { OnErr result (self.new ≡ self.old) }
    {
        self.nodes.are_few();
        self.closed.add(&self.log, p)?;
        self.commits = counted_up(self.commits, self.settings.budget);
        Ok(Applied::Done)
    }
}
