//! The job that writes the log of a root's front.
//! It builds on `log_maker`, which writes the log line by line.
//! Its contract promises the text of the log by its definition, or the first root card with too
//! large a tree.
#![tactic(auto)]

mod prove;

pub use prove::prove_front;
