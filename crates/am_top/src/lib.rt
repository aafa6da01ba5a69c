//! The whole program as one call: words and files in, a report or a refusal out.
//! It builds on the reading of inputs, a crate for the work of each job, and the line of a refusal.
//! Its contract promises the bytes that the definitions give, and the cause of every refusal.
#![tactic(auto)]

mod jobs;
pub mod laws;
mod program;

pub use am_answer::{FileWord, PbnKind, Place, Status};
pub use program::run;
