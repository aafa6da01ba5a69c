//! The job `cards`: every legal card of a root side by side. It builds on `card_brackets` for what
//! is known of each card with some moves, on `exact_cards` for what is known with all moves
//! planned, and on `card_forms` for the texts. Its contract promises the table, and the text of the
//! form, by their definitions; or a root card with too large a tree, if some moves are planned.
#![tactic(auto)]

mod job;

pub use job::{cards_of, exact_cards_of, tell_cards, tell_exact};
