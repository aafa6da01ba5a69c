//! The decisions of a played board, or of many games, in three forms: plain text, records of CSV
//! and an object of JSON. It builds on `review_text` for what was told and for the plain text, and
//! on `text_forms`. Its contracts promise the text of each form by its definition.
#![tactic(auto)]

mod form;
mod objects;
mod records;

pub use form::{review_in, reviews_in};
