//! The job `words`: the strategies of a report in the words of bridge. It builds on `job_check`,
//! which judges the report first, and on `told_report`. Its contract promises the text, or the
//! refusal of `check`.
#![tactic(auto)]

mod telling;

pub use telling::{good_report, tell_report};
