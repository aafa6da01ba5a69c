//! What is asked of files in memory, and the text of the answer in the caller's buffer.
//! It builds on `am_inputs` for what the files lead to, on the crates of the jobs for their texts,
//! and on `am_line` for the line of a refusal. It starts no thread, and keeps nothing between
//! calls.
//! Its contract promises the text that the definitions give, or the status that the program would
//! end with, and its line.
#![tactic(auto)]

mod deliver;
mod parts;
mod request;
mod texts;

pub use deliver::answer;
pub use request::Request;
pub use texts::text_for;
