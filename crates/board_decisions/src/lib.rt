//! The decisions of declarer's side in the play of a board: the cards that were chosen among legal
//! cards that aren't all equal, and what was known at each. It builds on `layout_list` for the
//! layouts that the play allows, and on `equal_cards`. Its contract promises all decisions, each
//! with the layouts of the same board with its play cut there.
#![tactic(auto)]

mod list;
mod moments;

pub use list::{Decision, decisions};
pub use moments::{is_chosen, is_turn, kept_before, trick_of};
