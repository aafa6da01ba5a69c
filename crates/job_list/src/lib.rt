//! The job `list`: all layouts of a board that the play allows, as a layout file. It builds on
//! `layout_maker` for the layouts, and on `am_report` for the text. Its contract promises the text
//! of every layout in order, or why the layouts aren't listed.
#![tactic(auto)]

mod list;

pub use list::list_layouts;
