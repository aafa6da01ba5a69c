//! Where two strategies part: the cards after which they first play different cards.
//! It builds on plans in memory and on what a plan does after each series of cards.
//! Its contract promises that no earlier place parts them, and that two strategies which part
//! nowhere are the same.
#![tactic(auto)]

pub mod laws;
mod nearest;
mod walk;

pub use walk::{Parting, first_parting};
