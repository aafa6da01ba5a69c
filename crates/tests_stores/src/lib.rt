//! Tests of what the cuts, the stops and the stores spare a search, by public calls alone.
//! It builds on the crates that it tests, and no crate builds on it.
//! It promises nothing: the nodes of the small trees were counted by hand.
#![tactic(auto)]

#[cfg(test)]
mod cuts;
#[cfg(test)]
mod endings;
#[cfg(test)]
mod gates;
#[cfg(test)]
mod roots;
