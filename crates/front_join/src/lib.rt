//! Joins: the front of a node if a defender plays, from the fronts of its children. It builds on
//! `pareto_fronts`. After any list of children, in any order, the front is the reduced list of all
//! meets of one spread vector of each child.
#![tactic(auto)]

mod joiner;
pub mod laws;

pub use joiner::{Joiner, joined_front};
