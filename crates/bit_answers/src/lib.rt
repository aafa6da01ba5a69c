//! What is found for a question in numbers: the card to play, what each card is worth, the front,
//! and the strategy for one of its vectors.
//! It builds on `bit_questions` for the node that the numbers say, on `root_workers` and
//! `alphamu_core` for the search, on `plan_finder` and `flat_plans` for strategies, and on
//! `fusion_base` for double dummy. It starts no thread.
//! Its contract promises the answers of the definitions at that node, or why there is none.
#![tactic(auto)]

mod answers;
mod delivery;
mod fault;
mod searches;
mod strategies;
mod structs;
mod worths;

pub use answers::{card, cards, front};
pub use delivery::{choose, deliver};
pub use fault::BitFault;
pub use strategies::strategy;
pub use structs::{Choice, Worth};
