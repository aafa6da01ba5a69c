//! The job `lines`: the strategies of a report as PBN games, each played out in each kept layout.
//! It builds on `job_told`, which judges the report first, on `line_plays` for the play, and on
//! `pbn_games` for the text. Its contract promises the text, or the refusal of `check`.
#![tactic(auto)]

mod lines;

pub use lines::{games_in, tell_lines};
