//! Why a report isn't read.
ghost use Rattle.std.specs.Prelude.{◌≡◌};
ghost use Rattle.am_report.specs.declared.fault.ReportFault.TheVariants.{Memory};

use std::alloc::AllocFailed;
use thiserror::Error;

/// What the first line at fault was to be.
#[derive(Clone, Copy, Debug, PartialEq, Eq, Error)]
pub enum ReportKind {
    /// Line 1 is neither `alphamu report 1` nor `alphamu report 2`.
    #[error("line 1 is not the version")]
    Version,
    /// The lines above the front haven't exactly one number of moves from 1 to 26, or no line gives
    /// the front's length.
    #[error("the head has no front, or not one number of moves")]
    Head,
    /// A vector's line isn't 1 to 256 bits with the count of its ones, or in version 2 with a
    /// weight from 0 to 256,000,000.
    #[error("a vector does not stand with its count or weight")]
    Vector,
    /// This line can't be here in a plan.
    #[error("a line is none of a plan")]
    Plan,
    /// A node of a plan would be at level 65, whatever its line says.
    #[error("a plan has more than 64 levels")]
    TooDeep,
    /// The line after the last plan isn't the card with a count from 0 to 256, or in version 2 with
    /// a weight from 0 to 256,000,000.
    #[error("the card does not stand with its count or weight")]
    Card,
    /// The last line isn't `end`, or something follows it.
    #[error("the report does not end")]
    End,
}

/// Why a report isn't read.
#[derive(Clone, Copy, Debug, PartialEq, Eq, Error)]
pub enum ReportFault {
    /// The first line that isn't as it must be: its number from 1, and what it was to be.
    #[error("line {line}: {kind}")]
    Fault { line: u32, kind: ReportKind },
    /// Memory ran out.
    #[error("out of memory")]
    Memory,
}

impl<T: Drop> From<AllocFailed<T>> for ReportFault {
    ghost from_gives = { λ _ fault. fault ≡ Memory };

    fn from(_error: AllocFailed<T>) -> ReportFault {
        ReportFault::Memory
    }
}
