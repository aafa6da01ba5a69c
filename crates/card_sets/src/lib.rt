//! Cards, ranks, suits, seats and sets of cards. It builds on `bit_lists`, which says what the
//! machine word inside a set means. Each contract speaks of a card as its place in card order, and
//! of a set as the list of its cards in card order.
#![tactic(auto)]

mod card;
mod seat;
mod set;

pub use card::{Card, Rank, Suit};
pub use seat::{Compass, Seat};
pub use set::{CardSet, Cards};
