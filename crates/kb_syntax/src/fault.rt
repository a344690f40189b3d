// Why a text gives no problem.
use kb_term::Memory;
use kb_text::Refusal;
use thiserror::Error;

/// Why a text gives no problem.
#[derive(Clone, Copy, Debug, PartialEq, Eq, Error)]
pub enum SyntaxFault {
    /// The text spells no problem.
    #[error("refused: {0:?}")]
    Refused(Refusal),
    /// Want of memory.
    #[error("out of memory")]
    Memory,
}

impl From<Memory> for SyntaxFault {
    ghost use Rattle.std.specs.Prelude.{◌≡◌};
    ghost use Rattle.kb_syntax.specs.declared.fault.SyntaxFault.TheVariants.{Memory};

    ghost from_gives = { λ _ e. e ≡ Memory };

    fn from(_: Memory) -> SyntaxFault {
        SyntaxFault::Memory
    }
}
