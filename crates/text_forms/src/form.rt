//! The forms of a text.

/// How a text is written. Each form has the same values.
#[derive(Clone, Copy, Debug, PartialEq, Eq)]
pub enum Form {
    /// Lines for people.
    Text,
    /// Records of CSV, the first with the names of the fields.
    Csv,
    /// One object of JSON, on a line of its own.
    Json,
}
