//! The jobs that search: a root's report, its card alone, the summary of a made problem, and the
//! first strategy that is printed. It builds on `root_answers` for what is found at a root, and on
//! `am_report` for its texts. Its contract promises each text by its definition, or the first root
//! card with too large a tree.
#![tactic(auto)]

mod counted;
mod made;
mod root_jobs;

pub use made::{Made, summarize};
pub use root_jobs::{first_strategy, name_card, solve};
