//! What texts in several forms share: the form that is asked for, numbers behind words, records of
//! CSV and lines of JSON. It builds on `byte_text` and `card_letters`, and on `csv` and
//! `serde_json`. Its contracts promise each piece by its definition.
#![tactic(auto)]

mod form;
mod objects;
mod plain;
mod records;

pub use form::Form;
pub use objects::{card_string, compass_string, json_line};
pub use plain::push_number;
pub use records::{Record, push_fields};
