//! What a search answers.
use pareto_fronts::Front;
use std::alloc::{AllocError, AllocFailed};
use thiserror::Error;

/// What a search finds.
#[derive(Drop)]
pub enum Found {
    /// The front of the node.
    Exact(Front),
    /// Alpha dominates what every strategy wins here.
    Below,
}

/// Why a search ends with no answer.
#[derive(Clone, Copy, Debug, PartialEq, Eq, Error)]
pub enum SearchFault {
    /// The tree is larger than the budget.
    #[error("nodes spent")]
    Spent,
    #[error("out of memory")]
    Memory,
}

/// Why a search in a race ends with no answer.
#[derive(Clone, Copy, Debug, PartialEq, Eq, Error)]
pub enum RaceFault {
    /// The tree is larger than the budget.
    #[error("nodes spent")]
    Spent,
    #[error("out of memory")]
    Memory,
    /// Another runner of the race has the answer already.
    #[error("late in a race")]
    Late,
}

/// What a search in a race ends with.
pub type Answer = Result<Found, RaceFault>;

impl From<AllocError> for SearchFault {
    ghost use Rattle.std.specs.Prelude.{◌≡◌};
    ghost use Rattle.alphamu_core.specs.declared.answers.SearchFault.TheVariants.{Memory};

    ghost from_gives = { λ _ fault. fault ≡ Memory };

    fn from(_: AllocError) -> Self {
        SearchFault::Memory
    }
}

impl<T: Drop> From<AllocFailed<T>> for SearchFault {
    ghost use Rattle.std.specs.Prelude.{◌≡◌};
    ghost use Rattle.alphamu_core.specs.declared.answers.SearchFault.TheVariants.{Memory};

    ghost from_gives = { λ _ fault. fault ≡ Memory };

    fn from(_: AllocFailed<T>) -> Self {
        SearchFault::Memory
    }
}

impl From<SearchFault> for RaceFault {
    ghost use Rattle.std.specs.Prelude.{◌≡◌};
    ghost use Rattle.alphamu_core.specs.Races.{race_fault};

    ghost from_gives = { λ fault found. found ≡ race_fault fault };

    fn from(fault: SearchFault) -> Self {
        match fault {
            SearchFault::Spent => RaceFault::Spent,
            SearchFault::Memory => RaceFault::Memory,
        }
    }
}

impl From<AllocError> for RaceFault {
    ghost use Rattle.std.specs.Prelude.{◌≡◌};
    ghost use Rattle.alphamu_core.specs.declared.answers.RaceFault.TheVariants.{Memory};

    ghost from_gives = { λ _ fault. fault ≡ Memory };

    fn from(_: AllocError) -> Self {
        RaceFault::Memory
    }
}
