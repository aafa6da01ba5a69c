//! What the line of a status says, for a text that has it on a line of its own.
ghost use Rattle.std.specs.Prelude.{◌≡◌, ◌-◌, Some, drop, length, take, IfOk};
ghost use Rattle.am_answer.specs.Lines.{line_start, said_of};

use crate::line::write_line;
use am_answer::Status;
use am_outside::{Sink, SinkFailed};
use byte_text::Text;
use std::alloc::{AllocError, Global};

// A sink in memory, which takes whatever it is given while there is memory.
#[derive(Drop)]
struct LineSink {
    line: Text,
    faults: u64,
}

impl Sink for LineSink {
    ghost told = { λ sink. Some sink.line };

    ghost faults = { λ sink. sink.faults };

    fn write(&mut self, piece: &[u8]) -> Result<usize, SinkFailed> {
        match self.line.push(piece) {
            Ok(()) => Ok(piece.len()),
            Err(_) => {
                self.faults = self.faults.saturating_add(1);
                Err(SinkFailed)
            }
        }
    }
}

// A line without what each line begins with, and without its end.
fn between(alloc: Global, line: &[u8]) -> Result<Text, AllocError>
    ensures { IfOk result (λ text.
        text ≡ drop (length line_start) (take (length line.now - 1) line.now)) }
{
    let end = line.len().saturating_sub(1);
    let start = b"alphamu: ".len().min(end);
    Text::from_bytes(alloc, &line[start..end])
}

/// What the line of a status says: without `alphamu: ` before it, and without the end of the line.
#[tactic(auto, unfolding(am_answer::specs::Lines::said_of))]
pub fn said(alloc: Global, status: &Status) -> Result<Text, AllocError>
    ensures { IfOk result (λ text. text ≡ said_of status.now) }
{
    let mut sink = LineSink {
        line: Text::new(alloc),
        faults: 0,
    };
    match write_line(&mut sink, status) {
        Ok(()) => between(alloc, sink.line.bytes()),
        Err(_) => Err(AllocError),
    }
}
