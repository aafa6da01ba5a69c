//! Bridge as a game of hidden layouts: declarer's strategies in memory and in text, what they win,
//! the laws of their fronts, and the end of a search of a root that is too large.
//! It builds on the rules of play, on win vectors and on the theory of games with hidden layouts.
//! A contract speaks of a plan as a tree of cards, and each law is the contract of a function.
#![tactic(auto)]

pub mod laws;
mod plan;
mod plan_reader;
mod plan_text;
mod root_fault;

pub use plan::{Plan, Reply};
pub use plan_reader::{PlanFault, plan_text_reads_back, read_plan};
pub use root_fault::RootFault;
