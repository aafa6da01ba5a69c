//! The job `match`: the first strategy that is printed for a root, played out in one kept layout.
//! It builds on `job_search` for the strategy, on `am_match` for the play, on `am_report` for the
//! text. Its contract promises cards that follow the strategy and the styles of the defenders
//! handed in.
#![tactic(auto)]

mod play;

pub use play::{Match, play_match};
