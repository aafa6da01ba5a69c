//! A question in numbers: hands as sets of bits, a trick in progress, layouts, weights and moves.
//! It builds on `trick_rules` for nodes, on `card_sets` for cards and on `win_vectors` for weights.
//! Its contract promises the node that the numbers say, or what is wrong with them.
#![tactic(auto)]

mod asked;
mod cards;
mod fault;
mod layouts;
mod numbers;
mod question;
mod table;

pub use asked::{Asked, read};
pub use fault::QuestionFault;
pub use question::Question;
