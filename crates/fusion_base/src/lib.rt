//! Plain sampling: each card at a root judged by double dummy in each layout, as if declarer could
//! see the layout. It builds on `trick_rules` for the laws of play, on `dd_solver` for double
//! dummy, and on rayon for the threads. Its contract promises the table that the definition gives:
//! a line for each legal card, in card order.
#![tactic(auto)]

mod table;

pub use table::{CardVector, per_card, per_card_alone};
