//! The layouts behind a step of a told plan: those that can reach it, those that are won from each
//! place of the step, and those that its card gives up.
//! It builds on told plans, on the judge of plans and on double dummy. Its contract promises
//! exactly those sets; `laws` says what they come to.
#![tactic(auto)]

pub mod laws;
mod reaching;
mod standing;
mod steps;

pub use steps::{StepLayouts, layouts_at, reached_at};
