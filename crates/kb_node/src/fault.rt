// Why a node isn't added.
use kb_term::Memory;
use std::alloc::{AllocError, AllocFailed};
use thiserror::Error;

/// Why a node isn't added.
#[derive(Clone, Copy, Debug, PartialEq, Eq, Error)]
pub enum NodeFault {
    /// The pair is new and the table is full.
    #[error("the table of nodes is full")]
    Full,
    /// Want of memory; also where a new pair passes a limit of terms.
    #[error("out of memory")]
    Memory,
}

impl From<Memory> for NodeFault {
    ghost use Rattle.std.specs.Prelude.{◌≡◌};
    ghost use Rattle.kb_node.specs.declared.fault.NodeFault.TheVariants.{Memory};

    ghost from_gives = { λ _ e. e ≡ Memory };

    fn from(_: Memory) -> NodeFault {
        NodeFault::Memory
    }
}

impl From<AllocError> for NodeFault {
    ghost use Rattle.std.specs.Prelude.{◌≡◌};
    ghost use Rattle.kb_node.specs.declared.fault.NodeFault.TheVariants.{Memory};

    ghost from_gives = { λ _ e. e ≡ Memory };

    fn from(_: AllocError) -> NodeFault {
        NodeFault::Memory
    }
}

impl<T: Drop> From<AllocFailed<T>> for NodeFault {
    ghost use Rattle.std.specs.Prelude.{◌≡◌};
    ghost use Rattle.kb_node.specs.declared.fault.NodeFault.TheVariants.{Memory};

    ghost from_gives = { λ _ e. e ≡ Memory };

    fn from(_: AllocFailed<T>) -> NodeFault {
        NodeFault::Memory
    }
}
