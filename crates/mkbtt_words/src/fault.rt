// Why no words are given.
ghost use Rattle.std.specs.Prelude.{◌≡◌, ◌↔◌, ◌≢◌};
ghost use Rattle.clap.specs.Words.{kind_of};
ghost use Rattle.clap.specs.declared.error.kind.ErrorKind.TheVariants.{OutOfMemory};

use clap::error::ErrorKind;
use std::alloc::AllocError;
use thiserror::Error;

/// Why the words of a command line are not read.
#[derive(Clone, Copy, Debug, PartialEq, Eq, Error)]
pub enum WordsFault {
    /// The command does not take the words, or they ask for its help.
    #[error("the words are refused")]
    Refused,
    /// Want of memory.
    #[error("out of memory")]
    Memory,
}

impl From<AllocError> for WordsFault {
    ghost use Rattle.std.specs.Prelude.{◌≡◌};
    ghost use Rattle.mkbtt_words.specs.declared.fault.WordsFault.TheVariants.{Memory};

    ghost from_gives = { λ _ e. e ≡ Memory };

    fn from(_: AllocError) -> WordsFault {
        WordsFault::Memory
    }
}

// What an error of the command's parser is to the caller.
pub(crate) fn fault_of(error: &clap::Error) -> WordsFault
    ensures { (result ≡ WordsFault.Refused) ↔ (kind_of error.now ≢ OutOfMemory) }
{
    if error.kind() == ErrorKind::OutOfMemory {
        WordsFault::Memory
    } else {
        WordsFault::Refused
    }
}
