//! What words and files lead to: a job and its text, or a refusal; and the statuses of a run.
//! It builds on the readers, the search, plain sampling, logs and the texts, for what they mean.
//! Its contract promises the number of each status, and the status of each fault.
#![tactic(auto)]

mod inputs;
mod refusals;
mod root;
mod status;

pub use inputs::{GameFiles, Inputs};
pub use root::Root;
pub use status::{FileWord, PbnKind, Place, Status};
