//! Why a layout file isn't taken.
use pbn_deal::DealFault;
use thiserror::Error;

/// Why a layout file isn't taken. A line is counted in the file, from 1.
#[derive(Clone, Copy, Debug, PartialEq, Eq, Error)]
pub enum LayoutFault {
    /// A layout isn't in the Deal form.
    #[error("line {0}: the layout is not in the Deal form: {1}")]
    BadLine(u32, DealFault),
    /// A layout hides a hand, or its hands aren't those of the board.
    #[error("line {0}: the hands are not those of the board")]
    OtherHands(u32),
    /// The file has more than 256 layouts.
    #[error("line {0}: there are more than 256 layouts")]
    TooMany(u32),
    /// The play rules out each layout of the file.
    #[error("no layout is left")]
    NoneLeft,
    /// Memory was refused.
    #[error("out of memory")]
    Memory,
    /// A layout's weight isn't a number from 1 to 1,000,000, or no blank follows it.
    #[error("line {0}: the weight is not a number from 1 to 1000000 before a blank")]
    BadWeight(u32),
}
