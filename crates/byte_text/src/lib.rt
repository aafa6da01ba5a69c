//! Texts: bytes in a buffer of their own, and the lines, blanks, words and numbers of bytes.
//! It builds on std alone, below all crates of texts.
//! Its contract promises what each call reads of the bytes, and that a text grows by what was
//! pushed or stays as it was.
#![tactic(auto)]

mod blanks;
mod lines;
mod numerals;
mod text;

pub use blanks::{are_blanks, first_word, is_blank, skip_blanks};
pub use lines::{count_line_ends, line_at, line_number, split_line, text_after};
pub use numerals::{are_digits, read_number};
pub use text::Text;
