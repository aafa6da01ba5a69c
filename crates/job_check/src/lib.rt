//! The job `check`: whether each plan of a report wins exactly its vector, without any search. It
//! builds on `am_report` to read the report, and on `strategy_check` for the verdict on a plan. Its
//! contract promises the text where head and plans are good, or the first fault. A caller may hand
//! in another solver for the results that plans leave open.
#![tactic(auto)]

mod judge;
pub mod laws;

pub use judge::{check_report, check_report_by, has_head};
