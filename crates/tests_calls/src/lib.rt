//! Tests of public calls that no program makes, or none in a short run: laws, texts read back, the
//! end of a table, a memo that solvers share, a set of layouts. It builds on the crates that it
//! tests, and no crate builds on it. It promises nothing: what it expects was worked out by the
//! laws of bridge, by hand.
#![tactic(auto)]

#[cfg(test)]
mod endings;
#[cfg(test)]
mod exact;
#[cfg(test)]
mod games;
#[cfg(test)]
mod logs;
#[cfg(test)]
mod memos;
#[cfg(test)]
mod plan_texts;
#[cfg(test)]
mod reports;
#[cfg(test)]
mod sets;
#[cfg(test)]
mod tables;
