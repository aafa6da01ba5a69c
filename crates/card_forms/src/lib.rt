//! The cards of a root side by side in three forms: plain text, records of CSV and an object of
//! JSON. It builds on `card_brackets` and `exact_cards` for the tables, and on `text_forms`.
//! Its contract promises the text of each form by its definition.
#![tactic(auto)]

mod equals;
mod form;
pub mod laws;
mod objects;
mod plain;
mod planned;
mod records;
mod weight;

pub use form::{cards_in, exact_in};
pub use weight::weight_of_all;
