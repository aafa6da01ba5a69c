//! Tests of layouts that are drawn, of conditions on a hand, and of the endings of a suit.
//! It builds on the crates that it tests, and no crate builds on it.
//! It promises nothing: what it expects was worked out by a player, or by another program.
#![tactic(auto)]

#[cfg(test)]
mod conditions;
#[cfg(test)]
mod draws;
#[cfg(test)]
mod suits;
