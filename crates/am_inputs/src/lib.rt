//! Reads what a run is about: words, files, the board, the kept layouts and whose turn it is, for
//! one game or for all games of a deal file.
//! It builds on the readers of words, deal files and layout files, and on a shelf for the files.
//! Its contract promises what `am_answer` says that the files lead to, or a refusal that the files
//! or a fault explain.
#![tactic(auto)]

mod boards;
mod inputs;
mod root;

pub use boards::read_roots;
pub use inputs::{read_file, read_inputs, read_named};
pub use root::{read_deal, read_root};
