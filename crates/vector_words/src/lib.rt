//! Win vectors as other programs have them: in words of 64 layouts. And of a front the first of its
//! heaviest vectors.
//! It builds on `win_vectors` and `pareto_fronts`, and on `bit_lists` for what the words mean.
//! Its contract promises the words of the vectors, and that vector.
#![tactic(auto)]

mod best;
mod words;

pub use best::first_best;
pub use words::{front_words, words_of};
