// Commits of any proposal.
ghost use Rattle.std.specs.Prelude.{◌≡◌, IfOk, OnErr};
ghost use Rattle.mkb_rules.specs.Applicable.{IsApplicable};
ghost use Rattle.mkb_rules.specs.Applying.{Commits, HasBudget};
ghost use Rattle.mkb_rules.specs.Rewriting.{LeadsTo};

use crate::applied::{Applied, Committed, without_target};
use crate::state::State;
use kb_term::Memory;
use mkb_model::Proposed;
use std::alloc::Global;

impl State {
    /// Makes a commit: the proposal has its effect, or at a limit the processes on which it acts give up. It tells the node to which
    /// a rewriting led.
    ///
    /// # Errors
    ///
    /// Want of memory; the state is then as before.
    pub fn apply(&mut self, alloc: Global, proposal: &Proposed) -> Result<Committed, Memory>
        requires budget { HasBudget self.old }
        requires applicable { IsApplicable self.old proposal.now }
        ensures ok { IfOk result (λ made. Commits self.old proposal.now self.new made.applied) }
        ensures target { IfOk result (λ made. made.applied ≡ Applied.Done → LeadsTo self.new proposal.now made.target) }
        ensures err { OnErr result (self.new ≡ self.old) }
    {
        match proposal {
            Proposed::Facts(facts) => without_target(self.know(alloc, facts.items())),
            Proposed::Rewrite {
                node,
                side,
                position,
                rule,
                kind,
                result: outcome,
            } => self.rewrite(alloc, *node, *side, position, *rule, *kind, outcome),
            Proposed::One {
                process,
                node,
                dir,
                cert,
            } => without_target(self.orient_one(alloc, process, *node, *dir, cert)),
            Proposed::Both {
                process,
                node,
                cert0,
                cert1,
            } => without_target(self.orient_both(alloc, process, *node, cert0, cert1)),
            Proposed::Refuse { process, node } => without_target(self.refuse(
                alloc, process, *node,
            )),
            Proposed::Deduce { a, b, pairs } => without_target(self.deduce(
                alloc,
                *a,
                *b,
                pairs.items(),
            )),
            Proposed::Unjoined { process, pairs } => without_target(self.unjoined(
                alloc,
                process,
                pairs.items(),
            )),
            Proposed::Closed { process } => without_target(self.close(alloc, process)),
            Proposed::Limit { job, cause } => without_target(self.pass_limit(alloc, job, cause)),
        }
    }
}
