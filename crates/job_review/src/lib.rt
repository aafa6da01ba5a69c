//! The job `review`: every decision of a played board, and what each card cost. It builds on
//! `board_decisions` for the decisions, on `card_brackets` for the cards of each, and on
//! `review_forms` for the text. Its contracts promise the facts of each decision, and the text of a
//! form, by their definitions, or why there is none.
#![tactic(auto)]

mod job;
mod review;
mod told;

pub use job::tell_review;
pub use review::{Asked, review_of};
