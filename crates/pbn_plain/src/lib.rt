//! Games as a person writes them down, line by line, and the law that they are read back as they
//! were written.
//! It builds on `pbn_text`, whose grammar goes the way of a scanner.
//! Definitions and a law alone: a misreading that grammar and reader share would break it.
#![tactic(auto)]

pub mod laws;
