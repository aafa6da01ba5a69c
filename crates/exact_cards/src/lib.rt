//! Every legal card of a root with what one strategy can win after it, all moves planned, and with
//! what sampling believes of it.
//! It builds on `set_search` for what one strategy can win, on `fusion_base` for sampling, and on
//! `card_brackets` for the rows.
//! Its contract promises a row for each card, by the definitions, however few nodes a search may
//! enter.
#![tactic(auto)]

pub mod laws;
mod rows;
mod safest;
mod table;

pub use table::{ExactTable, exact_table};
