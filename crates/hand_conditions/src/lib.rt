//! Conditions on a hand of cards as a player says them, as `15-17 hcp, 5+ hearts, holds SK`. It
//! builds on `card_sets` for hands, and on `byte_text` and `card_letters` for the text. Its
//! contract promises what a text means, or the term that has no meaning; and which hands meet a
//! condition.
#![tactic(auto)]

mod condition;
mod counted;
mod fault;
mod reading;
mod span;
mod term;

pub use condition::{Condition, read_condition};
pub use counted::{points, shape};
pub use fault::{ConditionFault, TermFault};
pub use span::Span;
pub use term::{Measure, Term};
