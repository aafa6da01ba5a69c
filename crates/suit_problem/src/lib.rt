//! The ending in which a suit is played: the cards that two hands hold of it, as a player writes
//! them, and the deal file and the layout file of the ending. It builds on `layout_maker` for the
//! divisions of the missing cards, and on `pbn_deal` for the Deal form. Its contract promises what
//! the texts of the hands say, or the first fault in them, and both files byte for byte.
#![tactic(auto)]

mod ending;
mod fault;
mod hands;
mod reading;
mod sides;
mod texts;
mod weights;

pub use ending::{Ending, ending_of};
pub use fault::SuitFault;
pub use hands::SuitHands;
pub use reading::read_hands;
pub use texts::{suit_deal, suit_layouts};
