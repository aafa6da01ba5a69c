//! Double dummy: whether declarer's side takes the need with all cards seen by all.
//! It builds on `trick_rules`, whose `makes` says what double dummy is. A faster solver depends on
//! its laws.
//! Its contracts promise `makes` by plain minimax, to the last card, in one layout or in each
//! layout of a node. They need no table and no search to be trusted.
#![tactic(auto)]

mod in_play;
pub mod laws;
mod plain;
mod results;

pub use in_play::cards_in_play;
pub use plain::makes_plain;
pub use results::plain_results;
