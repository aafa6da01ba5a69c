//! Logs that prove a front complete, and a judge of logs that trusts no search. It builds on the
//! rules of play, on plain double dummy, on fronts and joins, and on the laws of strategies. A log
//! is accepted exactly when each of its lines is sound, and then no strategy wins more.
#![tactic(auto)]

mod best;
mod check;
mod cites;
mod covering;
mod joining;
pub mod laws;
mod lines;
mod paths;
mod sound;

pub use check::{LogVerdict, check_log};
pub use lines::{LineList, Log, LogLine, Rule, VectorList};
