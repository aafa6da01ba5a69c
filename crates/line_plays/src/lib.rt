//! A strategy played out in one layout against a defence that beats it, if there is one.
//! It builds on `am_match` for what follows a strategy, on `strategy_check` for what a strategy
//! wins, and on `dd_solver` for open results and the cards after the strategy has stopped.
//! Its contract promises each card, and that the contract is made exactly if the strategy wins the
//! layout; `laws` says that any such line of play shows as much.
#![tactic(auto)]

mod defending;
pub mod laws;
mod layout;
mod playing;

pub use am_match::PlayOut;
pub use layout::play_in_layout;
pub use playing::play_against_best_defence;
