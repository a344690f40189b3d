// Why a term isn't made.
use crate::limit::Limit;
use crate::memory::Memory;
use std::alloc::AllocError;
use thiserror::Error;

/// Why a call makes no term.
#[derive(Clone, Copy, Debug, PartialEq, Eq, Error)]
pub enum TermFault {
    /// The term passes the limit.
    #[error("the term passes the limit {0:?}")]
    Large(Limit),
    /// Want of memory.
    #[error("out of memory")]
    Memory,
}

impl From<Memory> for TermFault {
    ghost use Rattle.std.specs.Prelude.{◌≡◌};
    ghost use Rattle.kb_term.specs.declared.fault.TermFault.TheVariants.{Memory};

    ghost from_gives = { λ _ e. e ≡ Memory };

    fn from(_: Memory) -> TermFault {
        TermFault::Memory
    }
}

impl From<AllocError> for TermFault {
    ghost use Rattle.std.specs.Prelude.{◌≡◌};
    ghost use Rattle.kb_term.specs.declared.fault.TermFault.TheVariants.{Memory};

    ghost from_gives = { λ _ e. e ≡ Memory };

    fn from(_: AllocError) -> TermFault {
        TermFault::Memory
    }
}
