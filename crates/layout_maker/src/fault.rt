//! Why a board's layouts aren't listed.
ghost use Rattle.std.specs.Prelude.{◌≡◌};
ghost use Rattle.layout_maker.specs.declared.fault.MakeFault.TheVariants.{Memory};

use std::alloc::AllocError;
use thiserror::Error;

/// Why a board's layouts aren't listed.
#[derive(Clone, Copy, Debug, PartialEq, Eq, Error)]
pub enum MakeFault {
    /// More than 256 layouts fit, as many as this.
    #[error("{0} layouts fit")]
    TooManyFit(u128),
    /// The play rules out every layout.
    #[error("no layout fits")]
    NoneFit,
    /// The board doesn't tell which cards the defenders hold.
    #[error("the defenders' cards are not shown")]
    NotShown,
    /// Memory was refused.
    #[error("out of memory")]
    Memory,
}

impl From<AllocError> for MakeFault {
    ghost from_gives = { λ _ fault. fault ≡ Memory };

    fn from(_: AllocError) -> Self {
        MakeFault::Memory
    }
}
