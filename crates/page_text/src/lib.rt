//! The parts of a page that shows what a search has found: the verdict, every legal card, the
//! table, the lines of the report side by side and in words, where they part, what plain sampling
//! believes, the layouts, and the report. It builds on `html_text`, whose page has markup of its
//! own and text that is told, and on `card_brackets` for what is known of each card. A contract
//! says that a part is the one that its definition gives.
#![tactic(auto)]

mod beliefs;
mod cards;
mod frame;
pub mod laws;
mod layouts;
mod lines;
mod markup;
mod partings;
mod picking;
mod plays;
mod reached;
mod reasons;
mod refutations;
mod script;
mod shared;
mod signs;
mod steps;
mod table;
mod verdict;

pub use beliefs::{Belief, push_sampling};
pub use cards::push_cards;
pub use frame::{Tags, push_end, push_facts, push_navigation, push_report, push_start};
pub use layouts::{Layouts, push_layouts, push_numbers};
pub use lines::{Line, push_lines, push_trade_offs};
pub use partings::{Beside, push_partings};
pub use plays::{PlayedLine, PlayedOut};
pub use reached::Reached;
pub use reasons::push_kept_reason;
pub use refutations::{Refutation, refuting_place};
pub use table::push_table;
pub use verdict::{
    Rivals, Scale, Surety, best_from, plans_all, push_headline, push_horizon, push_promise,
};
