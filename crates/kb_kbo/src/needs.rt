// What rules need of weights and of a precedence.
ghost use Rattle.std.specs.Prelude.{ℕ, List, ◌∷◌, ◌≡◌, ◌<◌, ◌≤◌, IsTrue, All, Vec, MatchOption, IfOk, length};
ghost use Rattle.kb_kbo.specs.declared.level.Level.{Level};
ghost use Rattle.kb_kbo.specs.KnuthBendix.{KboOrder};
ghost use Rattle.kb_kbo.specs.Asking.{Asks, AreAskedAll};
ghost use Rattle.kb_kbo.specs.Orders.{KboOrients};
ghost use Rattle.kb_kbo.specs.Search.{Fits, IsBetween, IsMet, IsAsked};
ghost use Rattle.kb_linear.specs.Limits.{AreMeasurable};

use crate::known::Known;
use crate::level::{Level, Tie, push_levels};
use kb_term::{Memory, Rule, Symbol};
use std::alloc::Global;

/// What a rule needs of the precedence where the weights are fixed.
#[derive(Clone, Copy)]
pub(crate) enum Demand {
    /// Nothing.
    Nothing,
    /// The first symbol above the second.
    Above(Symbol, Symbol),
    /// More than any precedence gives.
    Refused,
}

/// What the comparison decides with these weights of the first 8 symbols; none where the next one decides.
fn outcome(level: &Level, weights: &[u8; 8]) -> Option<Demand>
    ensures { (order : KboOrder) (levels : List Level) → IsBetween order weights.now weights.now → Asks order (level.now ∷ levels) → MatchOption result (Asks order levels) (IsMet order) }
{
    let left = level.left.value(weights);
    let right = level.right.value(weights);
    if left < right {
        return Some(Demand::Refused);
    }
    if left > right {
        return Some(Demand::Nothing);
    }
    match level.tie {
        Tie::Refused => Some(Demand::Refused),
        Tie::Above(f, g) => Some(Demand::Above(f, g)),
        Tie::Next => None,
    }
}

/// What the comparisons need of the precedence with these weights of the first 8 symbols.
fn demand_of(levels: &[Level], weights: &[u8; 8]) -> Demand
    ensures { (order : KboOrder) → IsBetween order weights.now weights.now → Asks order levels.now → IsMet order result }
{
    for i in 0..levels.len() {
        if let Some(demand) = outcome(&levels[i], weights) {
            return demand;
        }
    }
    Demand::Nothing
}

/// What the comparisons need of the precedence with all weights.
fn settled(levels: &[Level]) -> Demand
    ensures { (order : KboOrder) → Asks order levels.now → IsMet order result }
{
    if levels.is_empty() {
        return Demand::Nothing;
    }
    let level = levels[0];
    if !level.is_even() {
        return Demand::Nothing;
    }
    match level.tie {
        Tie::Refused => Demand::Refused,
        Tie::Above(f, g) => Demand::Above(f, g),
        Tie::Next => Demand::Nothing,
    }
}

/// What the rules ask: what is known of the precedence with all weights, and the comparisons of the other rules.
#[derive(Drop)]
pub(crate) struct Asked {
    pub(crate) known: Known,
    pub(crate) table: Vec<Vec<Level>>,
}

/// What the rules ask; none where no order with at most 8 weights orients them.
pub(crate) fn asked_of(alloc: Global, rules: &[Rule]) -> Result<Option<Asked>, Memory>
    requires { AreMeasurable rules.now }
    ensures { IfOk result (λ found. MatchOption found ((order : KboOrder) → length order.weights ≤ 8 → ¬ KboOrients order rules.now) (IsAsked rules.now)) }
{
    let mut known = Known::new();
    let mut table = Vec::with_capacity(alloc, rules.len())?;
    for rule in rules {
        let mut levels = Vec::new(alloc);
        push_levels(&mut levels, rule.left(), rule.right())?;
        match settled(&levels) {
            Demand::Nothing => table.push(levels)?,
            Demand::Refused => return Ok(None),
            Demand::Above(f, g) => {
                if !known.learn(f, g) {
                    return Ok(None);
                }
            }
        }
    }
    Ok(Some(Asked { known, table }))
}

/// Records what all rules need of the precedence with these weights: false where no precedence has it.
pub(crate) fn gather(table: &[Vec<Level>], weights: &[u8; 8], known: &mut Known) -> bool
    ensures { (order : KboOrder) → IsBetween order weights.now weights.now → AreAskedAll order table.now → Fits known.old order.precedence → IsTrue result × Fits known.new order.precedence }
{
    for levels in table {
        match demand_of(levels, weights) {
            Demand::Nothing => {}
            Demand::Refused => return false,
            Demand::Above(f, g) => {
                if !known.learn(f, g) {
                    return false;
                }
            }
        }
    }
    true
}

/// Whether with weights between the low and the high ones each rule's left side may weigh as much as its right side.
pub(crate) fn may_orient(table: &[Vec<Level>], low: &[u8; 8], high: &[u8; 8]) -> bool
    ensures { (order : KboOrder) → IsBetween order low.now high.now → AreAskedAll order table.now → IsTrue result }
{
    for levels in table {
        if levels.len() > 0 {
            let level = &levels[0];
            if level.left.value(high) < level.right.value(low) {
                return false;
            }
        }
    }
    true
}
