//! The job `fusion`: what plain sampling believes of each card. It builds on `fusion_base` for the
//! table, and on `am_report` for the text. Its contract promises the text of the table that the
//! definition gives, unless an allocation fails.
#![tactic(auto)]

mod sample;

pub use sample::{sample_text, sample_text_alone};
