//! What is found at a root: the front in report order with a plan for each vector, the named card
//! and the best weight, as the text of a report. It builds on `root_workers` for the
//! front, and on `plan_finder` for the plans. Its contract promises the definition's answer and
//! report, whatever the workers, the table and the gate do, or a root card with too large a tree.
#![tactic(auto)]

mod chosen;
mod order;
mod report;
mod table;
mod wanted;
mod written;

pub use chosen::chosen_plan;
pub use order::reported;
pub use report::report_text;
pub use table::{options_of, table_of};
pub use written::{WrittenAnswer, written_root};
