//! Play-outs of a strategy in one layout, against defenders that the caller hands in.
//! It builds on `strategy_tree` for strategies, on `strategy_check` for what it takes to follow
//! one, and on `dd_solver` for the cards after a strategy has stopped.
//! Its contract promises that the cards follow the strategy and the defenders' styles, and that a
//! layout that the strategy wins is made whoever the defenders are.
#![tactic(auto)]

mod defender;
mod following;
pub mod laws;
mod playing;
mod seats;
mod styles;

pub use defender::Defender;
pub use following::{card_by_plan, rest_after};
pub use playing::{PlayOut, play_out};
pub use seats::Swap;
pub use styles::{HighCard, LowCard};
