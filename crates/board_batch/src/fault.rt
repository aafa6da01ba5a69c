//! Why a batch ends with no answer.
use am_answer::Status;
use card_sets::Card;
use std::alloc::{AllocError, AllocFailed};
use thiserror::Error;

/// Why a batch of problems ends with no answer.
#[derive(Clone, Copy, Debug, PartialEq, Eq, Error)]
pub enum BatchFault {
    /// A problem by its number, and one of its root cards: the tree after this card has more nodes
    /// than a search may enter.
    #[error("nodes spent")]
    Spent(u16, Card),
    #[error("out of memory")]
    Memory,
}

impl From<AllocError> for BatchFault {
    ghost use Rattle.std.specs.Prelude.{◌≡◌};
    ghost use Rattle.board_batch.specs.declared.fault.BatchFault.TheVariants.{Memory};

    ghost from_gives = { λ _ fault. fault ≡ Memory };

    fn from(_: AllocError) -> Self {
        BatchFault::Memory
    }
}

impl<T: Drop> From<AllocFailed<T>> for BatchFault {
    ghost use Rattle.std.specs.Prelude.{◌≡◌};
    ghost use Rattle.board_batch.specs.declared.fault.BatchFault.TheVariants.{Memory};

    ghost from_gives = { λ _ fault. fault ≡ Memory };

    fn from(_: AllocFailed<T>) -> Self {
        BatchFault::Memory
    }
}

/// The status of a batch that ends with no answer: the number of a problem is that of its game.
impl From<BatchFault> for Status {
    ghost use Rattle.std.specs.Prelude.{◌≡◌};
    ghost use Rattle.board_batch.specs.Refusals.{batch_status};

    ghost from_gives = { λ fault status. status ≡ batch_status fault };

    fn from(fault: BatchFault) -> Self {
        match fault {
            BatchFault::Spent(game, card) => Status::GameSpent(game, card),
            BatchFault::Memory => Status::Memory,
        }
    }
}
