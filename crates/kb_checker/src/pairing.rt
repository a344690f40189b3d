// Rules that may overlap.
ghost use Rattle.std.specs.Prelude.{◌<◌, ◌^◌, ◌↔◌, ℕ, Contains, IfOk, length};
ghost use Rattle.std.specs.List.Sorted.{IsStrictlyIncreasing};
ghost use Rattle.kb_term.specs.FewArguments.{HasFewArguments};
ghost use Rattle.kb_checker.specs.Partners.{HoldsLeftSides, IsPartner};

use kb_overlap::positions_for;
use kb_term::{Memory, Rule, subterm};
use rule_index::RuleIndex;
use std::alloc::Global;

/// The left sides of the rules, each under the number of its rule.
pub(crate) fn left_sides(alloc: Global, rules: &[Rule]) -> Result<RuleIndex, Memory>
    requires { length rules.now < 2 ^ 32 }
    ensures { IfOk result (HoldsLeftSides (length rules.now) rules.now) }
{
    let mut index = RuleIndex::new(alloc);
    for i in 0..rules.len() {
        index.add(i as u32, &rules[i])?;
    }
    Ok(index)
}

/// The numbers under which the index holds left sides that agree with a subterm of the outer left side at which no variable
/// stands, each once, in rising order. Each rule that overlaps the outer rule has its left side among them.
pub(crate) fn partners(alloc: Global, index: &RuleIndex, outer: &Rule) -> Result<Vec<u32>, Memory>
    requires { HasFewArguments outer.now.left }
    ensures keys { IfOk result (λ keys. (key : ℕ) → Contains keys.items key ↔ IsPartner index.now outer.now.left key) }
    ensures rising { IfOk result (λ keys. IsStrictlyIncreasing keys.items) }
{
    let positions = positions_for(alloc, outer, false)?;
    let mut keys = Vec::new(alloc);
    for k in 0..positions.len() {
        if let Some(u) = subterm(outer.left(), &positions[k]) {
            let mut found = index.overlapping(u)?;
            keys.append(&mut found)?;
        }
    }
    keys.sort_unstable();
    keys.dedup();
    Ok(keys)
}
