//! The laws of bridge play: tricks, positions, and nodes with the layouts that are thought
//! possible.
//! It builds on `card_sets` for cards and seats, and on `win_vectors` for the layouts that a card
//! keeps.
//! Each call is promised to equal its definition in `specs/`; `laws` says what those definitions
//! come to.
#![tactic(auto)]

mod card_line;
pub mod laws;
mod node;
mod position;
mod trick;
mod trump;

pub use card_line::CardLine;
pub use node::{MOST_MOVES, Node};
pub use position::{Position, end_trick, legal, places_on, play};
pub use trick::{Trick, winner};
pub use trump::Trump;
