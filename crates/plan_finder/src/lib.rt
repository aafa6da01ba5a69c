//! The plan that is printed for a vector of a front.
//! It builds on the search, and on the theory's one chosen plan for each vector.
//! A plan that is found is the chosen one; `Spent` names a card whose tree is larger than the budget
//! of a search.
#![tactic(auto)]

mod above;
mod choice;
mod digest;
mod finder;
mod kept_above;
mod memo;
mod plan_lines;
mod rules;
mod searches;
mod vector_at;
mod wanted;
mod writer;
mod written;

pub use finder::{FoundPlan, plan_for};
pub use wanted::Wanted;
pub use writer::PlanWriter;
