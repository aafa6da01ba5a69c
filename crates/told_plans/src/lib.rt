//! Plans as they are told: cards of a defender whose replies agree are told together, so that a
//! person can read them.
//! It builds on plans in memory. A told plan loses nothing: cut down to what can be played at the
//! node of its plan, it is that plan.
#![tactic(auto)]

mod answers;
mod grouping;
mod merging;
mod told;

pub use merging::both;
pub use told::{Branch, ToldPlan};
