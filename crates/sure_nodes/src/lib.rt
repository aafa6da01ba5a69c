//! Sure nodes: nodes at which declarer's side is on lead and can cash the tricks that it needs,
//! whatever the defenders hold; and bridge as a game of assured vectors.
//! It builds on `assured_games`, `sure_tricks` and `strategy_tree`.
#![tactic(auto)]

pub mod laws;
mod look;

pub use look::is_sure;
