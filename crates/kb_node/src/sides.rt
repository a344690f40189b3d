// The cells of a pair's sides, by which it is looked up.
ghost use Rattle.std.specs.Prelude.{◌≡◌, ◌+◌, ◌≤◌, ◌↔◌, length, IsTrue, MatchOption, IfOk, OnOk, OnErr};
ghost use Rattle.kb_term.specs.Tree.{tree_size};
ghost use Rattle.term_bank.specs.Terms.{LacksTerm};
ghost use Rattle.term_bank.specs.declared.bank.TheConstants.{MAX_CELLS};
ghost use Rattle.kb_node.specs.Banked.{AreSides, LacksSide, IsPairWithin, with_sides};

use kb_term::{Memory, Pair, term_limit};
use term_bank::{Bank, TermId};

/// The cells of both sides of a pair.
#[derive(Clone, Copy, Debug, PartialEq, Eq, Hash)]
pub struct Sides {
    pub first: TermId,
    pub second: TermId,
}

/// The cells of both sides; none where a side has no cell. It takes no memory.
pub(crate) fn sides_in(bank: &Bank, pair: &Pair) -> Option<Sides>
    ensures { MatchOption result (LacksSide bank.now pair.now) (λ sides. AreSides bank.now sides pair.now) }
{
    let first = bank.lookup(pair.first())?;
    let second = bank.lookup(pair.second())?;
    Some(Sides { first, second })
}

/// Brings both sides into the bank, which is as before where there is no memory.
pub(crate) fn intern(bank: &mut Bank, pair: &Pair) -> Result<Sides, Memory>
    requires { length bank.old + (tree_size pair.now.first + tree_size pair.now.second) ≤ MAX_CELLS }
    ensures ok { OnOk result (bank.new ≡ with_sides bank.old pair.now) }
    ensures sides { IfOk result (λ sides. AreSides bank.new sides pair.now) }
    ensures err { OnErr result (bank.new ≡ bank.old) }
{
    let used = bank.used();
    let first = bank.intern(pair.first())?;
    match bank.intern(pair.second()) {
        Ok(second) => Ok(Sides { first, second }),
        Err(fault) => {
            bank.cut(used);
            Err(fault)
        }
    }
}

/// Whether both sides are within the limits of terms.
pub(crate) fn is_within(pair: &Pair) -> bool
    ensures { IsTrue result ↔ IsPairWithin pair.now }
{
    term_limit(pair.first()).is_none() && term_limit(pair.second()).is_none()
}
