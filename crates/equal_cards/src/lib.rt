//! Equal cards of a node: of those that come to the same, only the lowest need be tried.
//! It builds on `strategy_tree` for fronts, and on `double_dummy` for what makes two cards equal.
//! Each choice has a kept one that is legal in the same layouts and leads to the same front.
#![tactic(auto)]

mod equals;
pub mod laws;

pub use equals::one_of_equals;
