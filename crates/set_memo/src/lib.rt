//! What a search for one strategy has found already: sets of layouts that are won at a position, and
//! cores.
//! It builds on `set_nodes`, where a layout has one number at all positions. What is kept is right
//! by an invariant, so a memo may forget and its answers are right still.
#![tactic(auto)]

mod kept_set;
mod memo;
mod verdict;

pub use memo::SetMemo;
pub use verdict::Verdict;
