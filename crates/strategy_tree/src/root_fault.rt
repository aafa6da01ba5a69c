//! How a search that judges a root card by card ends with no answer.
use card_sets::Card;
use std::alloc::{AllocError, AllocFailed};
use thiserror::Error;

/// Why a loop over root cards ends with no answer.
#[derive(Clone, Copy, Debug, PartialEq, Eq, Error)]
pub enum RootFault {
    /// The tree after this card is larger than its budget.
    #[error("nodes spent")]
    Spent(Card),
    #[error("out of memory")]
    Memory,
}

impl From<AllocError> for RootFault {
    ghost use Rattle.std.specs.Prelude.{◌≡◌};
    ghost use Rattle.strategy_tree.specs.declared.root_fault.RootFault.TheVariants.{Memory};

    ghost from_gives = { λ _ fault. fault ≡ Memory };

    fn from(_: AllocError) -> Self {
        RootFault::Memory
    }
}

impl<T: Drop> From<AllocFailed<T>> for RootFault {
    ghost use Rattle.std.specs.Prelude.{◌≡◌};
    ghost use Rattle.strategy_tree.specs.declared.root_fault.RootFault.TheVariants.{Memory};

    ghost from_gives = { λ _ fault. fault ≡ Memory };

    fn from(_: AllocFailed<T>) -> Self {
        RootFault::Memory
    }
}
