//! Equivalent nodes: nodes whose cards in play lie alike by their relative ranks have one front.
//! It builds on `strategy_tree` for fronts, on `equal_cards` for two cards that exchange their
//! names, and on `dd_solver` for gaps that are closed.
#![tactic(auto)]

pub mod laws;
mod ranks;

pub use ranks::in_relative_ranks;
