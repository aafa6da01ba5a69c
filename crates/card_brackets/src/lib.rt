//! Every legal card of a root with a bracket round the weight that it wins, and with what sampling
//! believes of it.
//! It builds on `alphamu_core` for the front after a card, on `assured_fronts` for what is assured
//! after it, and on `fusion_base` for sampling.
//! Its contract promises a row for each card, by the definitions, whatever the table and the cuts
//! do, or a root card with too large a tree.
#![tactic(auto)]

mod bounds;
mod heaviest;
pub mod laws;
mod rounds;
mod rows;
mod table;

pub use rows::CardRow;
pub use table::{CardTable, card_table};
