//! Double dummy by partition search (Ginsberg): an answer that is remembered holds for every
//! position in which the cards that count lie alike. Ranks are relative: cards out of play leave no
//! gap.
//! It builds on the laws of `equivalent_positions`.
//! Its contract promises that the solver answers `makes` of `trick_rules`, whatever its ways.
#![tactic(auto)]

mod answer;
mod enough;
mod hands;
mod headed;
mod honours;
mod key;
mod leads;
mod memo;
mod needs_all;
mod order;
mod plays;
mod recall;
mod relative_ranks;
mod search;
mod shape;
mod shard_rule;
mod shared_memo;
mod solver;
mod sure;
mod top_trumps;
mod turn;
mod worths;

pub use shared_memo::SharedMemo;
pub use solver::Solver;
