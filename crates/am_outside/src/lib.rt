//! The outside: what is read, what is written, and who hears of it.
//! It builds on `byte_text` for what is read, and on `card_sets` for the cards that a gate hears
//! of.
//! Bytes that a shelf or a sink reports are read and written exactly, and a fault is answered only
//! if a count of faults rose.
#![tactic(auto)]

mod counts;
mod file_shelf;
mod gate;
mod memory_shelf;
mod memory_sink;
mod shelf;
mod sink;
mod std_sink;

pub use byte_text::Text;
pub use file_shelf::FileShelf;
pub use gate::{Gate, OpenGate};
pub use memory_shelf::MemoryShelf;
pub use memory_sink::MemorySink;
pub use shelf::{Shelf, ShelfFault};
pub use sink::{Sink, SinkFailed, write_whole};
pub use std_sink::StdSink;
