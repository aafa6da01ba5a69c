//! The log that proves the front of a node complete, written in one pass.
//! It builds on logs, on fronts and joins, and on double dummy.
//! What a call gives is the log of the definition, or the first root card whose tree is too large.
#![tactic(auto)]

pub mod laws;
mod lines;
mod root;
mod tree;
mod tree_writer;

pub use root::{MOST_NODES, log_of};
