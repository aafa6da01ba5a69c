//! Quick tricks: tricks that a side takes whatever the others do, seen by a look at the cards.
//! It builds on the rules of play.
//! What it counts is proved to hold of double dummy.
#![tactic(auto)]

mod count;
pub mod laws;

pub use count::{Counts, SeenHands, can_lead_over, high_count, own_counts, partners_counts};
