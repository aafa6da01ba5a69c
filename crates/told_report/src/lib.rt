//! The strategies of a report in the words of bridge. It builds on reports and on told words. Its
//! contract promises the text, and that each told plan cut down at the node is the report's plan.
#![tactic(auto)]

mod telling;

pub use telling::tell_strategies;
