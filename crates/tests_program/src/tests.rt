//! The tests, and what they have in common: a problem, and files, sinks and gates in memory.
mod failures;
mod queen;
mod workers;
