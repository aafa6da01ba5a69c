//! Told plans in the words of bridge: lines of steps, with the layouts that are made from there,
//! and the lines of their branches indented below them. It builds on told plans and on the layouts
//! behind their steps. A contract says that the text is the one that the definition gives.
#![tactic(auto)]

pub mod laws;
mod layouts;
mod lines;
mod phrases;
mod reached;
mod steps;
mod turns;
mod words;

pub use reached::lines_reached;
pub use steps::Strategy;
pub use words::Writer;
