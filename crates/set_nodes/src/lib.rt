//! Sets of layouts at bridge: positions with some of the layouts of a node, by their numbers there,
//! and cards of the defenders that need no answer of their own.
//! It builds on `winnable_sets` and on the laws of nodes and of equal cards.
#![tactic(auto)]

pub mod laws;
mod layouts;

pub use layouts::{left_at, legal_layouts, only};
