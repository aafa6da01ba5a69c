//! The one line to standard error that says why a run was refused. It builds on `am_answer` for the
//! statuses, on `job_words` for what isn't understood in the words of a study, and on itoa for
//! digits that take no memory. Its contract promises the whole line, or a proper prefix of it if
//! writing fails.
#![tactic(auto)]

mod line;
mod names;
mod saying;
mod words;

pub use line::refuse;
pub use saying::said;
pub use words::refuse_words;
