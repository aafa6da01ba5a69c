//! The chances of a suit as a text: a line for a number of tricks. It builds on `byte_text`. Its
//! contract promises the line byte for byte, with each weight as a percentage and as a fraction.
#![tactic(auto)]

mod line;
mod share;

pub use line::{SuitLine, push_line};
