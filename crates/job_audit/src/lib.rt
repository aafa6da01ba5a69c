//! The job that judges a report by a log: whether no strategy wins more than the report says.
//! It builds on `log_check` for the judge, on `log_texts` for the log, and on `am_report` for the
//! report. It searches nothing: no front is looked up, cut or found.
//! Its contract promises its verdict by the definitions, or the first fault with its line.
#![tactic(auto)]

mod audit;

pub use audit::audit_report;
