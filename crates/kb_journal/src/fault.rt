// Why a journal isn't replayed.
use kb_term::Memory;
use std::alloc::AllocError;
use thiserror::Error;

/// Why a journal isn't replayed.
#[derive(Clone, Copy, Debug, PartialEq, Eq, Error)]
pub enum ReplayFault {
    /// The entry with this number, from 1, is the first that the board, following those before it, doesn't make.
    #[error("entry {0} isn't what the board makes")]
    BadEntry(u64),
    /// Want of memory.
    #[error("out of memory")]
    Memory,
}

impl From<Memory> for ReplayFault {
    ghost use Rattle.std.specs.Prelude.{◌≡◌};
    ghost use Rattle.kb_journal.specs.declared.fault.ReplayFault.TheVariants.{Memory};

    ghost from_gives = { λ _ e. e ≡ Memory };

    fn from(_: Memory) -> ReplayFault {
        ReplayFault::Memory
    }
}

impl From<AllocError> for ReplayFault {
    ghost use Rattle.std.specs.Prelude.{◌≡◌};
    ghost use Rattle.kb_journal.specs.declared.fault.ReplayFault.TheVariants.{Memory};

    ghost from_gives = { λ _ e. e ≡ Memory };

    fn from(_: AllocError) -> ReplayFault {
        ReplayFault::Memory
    }
}
