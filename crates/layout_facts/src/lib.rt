//! What decides a win vector: one fact about a defender's hand, or two. It builds on `trick_rules`
//! for nodes and their layouts, and on `win_vectors` for vectors. Its contract promises the first
//! reason, in the definition's order, that is so in exactly the layouts that are made; `laws` says
//! that no reason is missed.
#![tactic(auto)]

mod deciding;
mod fact;
mod judged;
pub mod laws;
mod listed;

pub use deciding::{Joint, Reason, what_decides};
pub use fact::Fact;
