//! Why a log isn't read.
use thiserror::Error;

/// Why a log isn't read.
#[derive(Clone, Copy, Debug, PartialEq, Eq, Error)]
pub enum LogFault {
    /// The first line of the file that doesn't stand as it must, by its number from 1.
    #[error("line {0}")]
    Line(u32),
    /// Memory ran out.
    #[error("out of memory")]
    Memory,
}
