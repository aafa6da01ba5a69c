//! Logs in text: a line for each line of a log, and a text read back as a log.
//! It builds on logs and on bytes as text.
//! What is written is the text of the definition, byte for byte; what a text says or its first line
//! at fault is the answer, unless an allocation fails; and what is written is read back.
#![tactic(auto)]

mod fault;
pub mod laws;
mod marks;
mod reading;
mod words;
mod writing;

pub use fault::LogFault;
pub use reading::read_log;
pub use writing::{LogWriter, log_text};
