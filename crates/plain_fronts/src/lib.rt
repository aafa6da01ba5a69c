//! Fronts by the plain recursion, with nothing that makes it fast: for small endings, and as a
//! measure for searches. It builds on `strategy_tree` for what a front is, on `pareto_fronts` for
//! the best of a list, and on plain double dummy. What a call gives is the front of the definition,
//! so that a run of it computes the definitions.
#![tactic(auto)]

mod plain;
mod steps;

pub use plain::plain_front;
pub use steps::{front_of_no_card, moves_after, with_child};
