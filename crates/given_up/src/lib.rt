//! The card of a play-out that gives its layout up: the first after which double dummy no longer
//! makes. It builds on `dd_solver` for double dummy, and its laws speak of the play-outs of
//! `line_plays`. Its contract promises that card; `laws` says that a play-out has one if double
//! dummy makes the layout and the strategy loses it, and that declarer's side plays it.
#![tactic(auto)]

mod giving;
pub mod laws;

pub use giving::{card_that_gives_up, giving_place};
