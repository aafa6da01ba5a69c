//! The Deal form, and a deal file's game as a board: the deal, the contract and the play so far. It
//! builds on `pbn_text` for games, on `card_letters` and `card_sets` for hands, and on
//! `trick_rules` for the laws of play. Its contract promises that a value or a game is read as the
//! grammar says or refused with its first fault, and that what is written is read back.
#![tactic(auto)]

mod board;
mod course;
mod deal;
mod fault;
mod hands;
mod mark;
mod read;
mod rotation;
mod row;
mod section;
mod tags;
mod writing;

pub use board::{Board, Played, seat_of};
pub use deal::{DealFault, DealValue, read_deal};
pub use fault::{BoardFault, BoardRefusal};
pub use read::read_board;
pub use rotation::turned;
pub use writing::{deal_text, deal_text_reads_back, hand_text};
