//! Why a condition isn't understood.
ghost use Rattle.std.specs.Prelude.{◌≡◌};
ghost use Rattle.hand_conditions.specs.declared.fault.ConditionFault.TheVariants.{Memory};

use byte_text::Text;
use std::alloc::{AllocError, AllocFailed};

/// Why a term isn't understood.
#[derive(Clone, Copy, Debug, PartialEq, Eq)]
pub enum TermFault {
    /// It has none of the forms of a term.
    NotUnderstood,
    /// It asks for at least more than it asks for at most.
    UpsideDown,
}

/// Why a condition isn't understood.
#[derive(Debug, Drop)]
pub enum ConditionFault {
    /// Its first term that isn't understood, as it stands between the commas, and why.
    Term(Text, TermFault),
    /// An allocation failed.
    Memory,
}

impl From<AllocError> for ConditionFault {
    ghost from_gives = { λ _ fault. fault ≡ Memory };

    fn from(_: AllocError) -> Self {
        ConditionFault::Memory
    }
}

impl<T: Drop> From<AllocFailed<T>> for ConditionFault {
    ghost from_gives = { λ _ fault. fault ≡ Memory };

    fn from(_: AllocFailed<T>) -> Self {
        ConditionFault::Memory
    }
}
