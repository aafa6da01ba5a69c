//! The texts that the program writes, and a report read back: the report of an answer with its
//! head, and the answers of the other jobs. It builds on `pbn_deal` and `layout_list` for what was
//! asked, on `fusion_base` for plain sampling, and on `strategy_tree` for plans and their lines.
//! Its contract promises each text whole, byte for byte, what a report says or its first fault,
//! unless an allocation fails, and that a written report is read back.
#![tactic(auto)]

mod answer;
mod audit;
mod boards;
mod card;
mod check;
mod fault;
mod fusion;
mod head;
pub mod laws;
mod lines;
mod list;
mod made;
mod played;
mod reading;
mod report_lines;
mod solve;
mod version;

pub use answer::{Entry, ReadEntry, SolveAnswer};
pub use audit::audit_text;
pub use boards::{GameText, boards_text};
pub use card::card_text;
pub use check::check_text;
pub use fault::{ReportFault, ReportKind};
pub use fusion::fusion_text;
pub use head::head_text;
pub use list::list_text;
pub use made::{MadeSummary, made_text};
pub use played::match_text;
pub use reading::{ReadReport, read_report};
pub use solve::{solve_end, solve_start, solve_text, vector_text};
pub use version::Version;
