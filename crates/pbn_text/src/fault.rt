//! What is wrong with a text.
ghost use Rattle.std.specs.Prelude.{◌≡◌};
ghost use Rattle.pbn_text.specs.declared.fault.TextFault.TheVariants.{Memory};

use std::alloc::{AllocError, AllocFailed};
use thiserror::Error;

/// What is wrong with PBN text.
#[derive(Clone, Copy, Debug, PartialEq, Eq, Error)]
pub enum Syntax {
    /// A string's line ends before its closing quote.
    #[error("a string does not end on its line")]
    OpenString,
    /// A `[` isn't followed by a name, a string and a `]`.
    #[error("an opening bracket begins no tag pair")]
    BadTag,
    /// A `{` has no `}` after it.
    #[error("a comment does not end")]
    OpenBrace,
    /// A byte is 0 to 8, 12, or 14 to 31.
    #[error("a byte is no text")]
    NotText,
    /// A token has no tag pair before it in its game.
    #[error("a token stands before the first tag pair of its game")]
    StrayToken,
}

/// Why a text gives no games.
#[derive(Debug, Drop, Error)]
pub enum TextFault {
    /// The text's first fault, and the number of its line, from 1.
    #[error("line {line}: {kind}")]
    Syntax { line: u32, kind: Syntax },
    /// Memory ran out.
    #[error("out of memory")]
    Memory,
}

impl From<AllocError> for TextFault {
    ghost from_gives = { λ _ fault. fault ≡ Memory };

    fn from(_error: AllocError) -> TextFault {
        TextFault::Memory
    }
}

impl<T: Drop> From<AllocFailed<T>> for TextFault {
    ghost from_gives = { λ _ fault. fault ≡ Memory };

    fn from(_error: AllocFailed<T>) -> TextFault {
        TextFault::Memory
    }
}
