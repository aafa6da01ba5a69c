//! Tests of the whole program as one call, over files, sinks and gates in memory: what no case of
//! `cases/` can show.
//! It builds on the call that the program makes, and no crate builds on it.
//! It has no function, so it promises nothing: what its tests expect was worked out by hand.
#![tactic(auto)]

#[cfg(test)]
mod tests;
