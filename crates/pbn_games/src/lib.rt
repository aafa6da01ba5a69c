//! A game as it is written in PBN: which strategy it shows in which layout, the hands before the
//! first card, and the play.
//! It builds on `pbn_deal` for boards and hands, and on `pbn_plain` for what a tag pair is in
//! print. Its contract promises each byte.
#![tactic(auto)]

mod game;
mod rows;
mod tags;

pub use game::{Shown, all_cards, dealt_hand, game_text};
