//! The page of a report at a root. It builds on `told_words` for the lines and on `page_text` for
//! the parts of the page. Its contract promises the page, and `laws` says that the page holds the
//! report.
#![tactic(auto)]

mod beliefs;
mod besides;
mod dropped;
pub mod laws;
mod lines;
mod markup;
mod named;
mod page;
mod plays;
mod refuted;

pub use named::names_own_card;
pub use page::{Shown, report_page};
