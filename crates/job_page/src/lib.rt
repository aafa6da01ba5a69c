//! The job `page`: a report as a page of HTML. It builds on `job_told`, which judges the report
//! first, on `job_lines` for the games of the deal file, and on `page_report` for the page. Its
//! contract promises the page, or the refusal of `check`.
#![tactic(auto)]

mod page;

pub use page::tell_page;
