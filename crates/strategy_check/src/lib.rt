//! Judges a plan without any search: whether it is a strategy at a node, and whether it wins
//! exactly a given vector. It builds on the rules of play, on plain double dummy and on plans
//! alone, and takes no memory. A caller may hand in another solver for the results that a plan
//! leaves open; the contracts stay the same. Each verdict says the whole truth: the first plan node
//! at fault, or the first layout whose bit differs.
#![tactic(auto)]

mod fitting;
mod inline_node;
pub mod laws;
mod open_results;
mod verdict;
mod winning;

pub use open_results::{DoubleDummy, PlainMinimax};
pub use verdict::{Verdict, check, check_by};
pub use winning::{wins, wins_by};
