//! A plan as an array of nodes, which programs in other languages can walk.
//! It builds on `strategy_tree` for plans in memory.
//! Its contract promises an array that is read as the same plan.
#![tactic(auto)]

mod array;
mod node;

pub use array::plan_nodes;
pub use node::PlanNode;
