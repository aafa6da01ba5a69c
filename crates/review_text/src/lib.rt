//! The text of a review: the decisions of a played board, or of many games, and what each card
//! cost. It builds on `text_forms` and `card_letters`. Its contracts promise the text by its
//! definition.
#![tactic(auto)]

mod game;
mod reviewed;
mod text;

pub use game::{GameReview, all_told, reviews_text};
pub use reviewed::Reviewed;
pub use text::{costly_among, greatest_cost, greatest_up_to, maybe_costly_among, review_text};
