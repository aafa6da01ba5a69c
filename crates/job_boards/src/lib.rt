//! The job that solves all games of a deal file, each on a layout file of its own, as one text.
//! It builds on `am_inputs` for the games' roots, on `board_batch` for their answers, and on
//! `am_report` and `am_line` for the text.
//! Its contract promises that text by its definition, or a game and a root card of it with too
//! large a tree.
#![tactic(auto)]

mod boards;
mod outcomes;
mod problems;

pub use boards::solve_boards;
