//! A layout file: the layouts that the user thinks possible, and those that the play rules out. It
//! builds on `pbn_deal` for the board and the Deal form, and on `trick_rules` for the laws of play.
//! Its contract promises the kept layouts with their root node, or the first fault with its line.
#![tactic(auto)]

mod fault;
mod kept;
mod line;
mod list;
mod verdict;

pub use fault::LayoutFault;
pub use kept::{Cause, Dropped, Kept};
pub use line::{Layout, MOST_LISTED, Weighed};
pub use list::layouts;
