//! The program `alphamu_study` as one call: words and files in, a text or a refusal out. It builds
//! on the reading of inputs, on `job_search` for a report that is searched for, on `job_told`,
//! `job_lines`, `job_page`, `job_cards` and `job_review`, and on the line of a refusal.
#![tactic(auto)]

mod form;
pub mod laws;
mod page_cards;
mod program;
mod refusal;
mod solved;
mod study;

pub use am_answer::Status;
pub use program::run_study;
pub use refusal::Refusal;
