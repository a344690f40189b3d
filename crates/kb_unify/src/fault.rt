// Why no unifier is given.
use kb_term::{Limit, Memory};
use thiserror::Error;

/// Why there is a most general unifier but none is given.
#[derive(Clone, Copy, Debug, PartialEq, Eq, Error)]
pub enum UnifyFault {
    /// It gives a variable a term that passes the limit.
    #[error("a term of the unifier passes the limit {0:?}")]
    Large(Limit),
    /// Want of memory.
    #[error("out of memory")]
    Memory,
}

impl From<Memory> for UnifyFault {
    ghost use Rattle.std.specs.Prelude.{◌≡◌};
    ghost use Rattle.kb_unify.specs.declared.fault.UnifyFault.TheVariants.{Memory};

    ghost from_gives = { λ _ e. e ≡ Memory };

    fn from(_: Memory) -> UnifyFault {
        UnifyFault::Memory
    }
}
