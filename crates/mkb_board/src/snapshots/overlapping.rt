// What an Overlap reads.
ghost use Rattle.std.specs.Prelude.{◌≡◌, IfOk};
ghost use Rattle.kb_jobs.specs.Taken.{IsTakenOverlap};
ghost use Rattle.mkb_rules.specs.Named.{IsRuleThere};
ghost use Rattle.mkb_board.specs.Shelf.{HoldsRead};

use crate::shelf::Shelf;
use kb_jobs::OverlapSnapshot;
use kb_label::Process;
use kb_term::{Memory, RuleRef};
use mkb_rules::State;

/// The two rules.
pub(crate) fn overlap_snapshot(
    state: &State,
    shelf: &mut Shelf,
    process: Process,
    first: RuleRef,
    second: RuleRef,
) -> Result<OverlapSnapshot, Memory>
    requires first { IsRuleThere state.now first }
    requires second { IsRuleThere state.now second }
    requires shelf { HoldsRead state.now shelf.old }
    ensures shelf { HoldsRead state.now shelf.new }
    ensures process { IfOk result (λ s. s.process ≡ process) }
    ensures first { IfOk result (λ s. s.first ≡ first) }
    ensures second { IfOk result (λ s. s.second ≡ second) }
    ensures taken { IfOk result (IsTakenOverlap state.now) }
{
    let first_rule = shelf.rule_at(state, first)?;
    let second_rule = shelf.rule_at(state, second)?;
    Ok(OverlapSnapshot {
        process,
        first,
        first_rule,
        second,
        second_rule,
    })
}
