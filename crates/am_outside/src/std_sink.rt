// Standard output and standard error as sinks. It is trusted that they write what they answer.
ghost use Rattle.std.specs.Prelude.{◌≡◌, ◌≤◌, None, length, IfOk, if◌then◌else◌};
ghost use Rattle.am_outside.specs.Faults.{one_more};
ghost use Rattle.am_outside.specs.Sink.{is_fault};

use crate::counts::count_one;
use crate::{Sink, SinkFailed};
use std::io::Print;
use std::marker::Model;

/// A stream as a sink, which tells nothing: `StdSink::new(rt.stdout())` or
/// `StdSink::new(rt.stderr())`.
#[derive(Drop)]
pub struct StdSink<P: Print + Drop> {
    stream: P,
    faults: u64,
}

// It is seen as its count of faults.
impl<P: Print + Drop> Model for StdSink<P> {
    ghost use Rattle.std.specs.Prelude.{ℕ};

    ghost Value = { ℕ };

    ghost view = { λ sink. sink.faults };
}

impl<P: Print + Drop> StdSink<P> {
    /// A sink that has seen no fault.
    pub fn new(stream: P) -> Self
        ensures { result ≡ 0 }
    {
        StdSink { stream, faults: 0 }
    }
}

impl<P: Print + Drop> Sink for StdSink<P> {
    ghost told = { λ _. None };

    ghost faults = { λ faults. faults };

    /// One write. Each error is a fault, and so is a write that takes nothing of a piece that has
    /// bytes.
    fn write(&mut self, piece: &[u8]) -> Result<usize, SinkFailed>
        ensures within { IfOk result (λ n. n ≤ length piece.now) }
        ensures counted { self.new
            ≡ (if is_fault result piece.now then one_more self.old else self.old) }
    {
        let written = self.stream.write_some(piece);
        if written.is_err() || !piece.is_empty() && matches!(written, Ok(0)) {
            self.faults = count_one(self.faults);
        }
        written.map_err(|_| SinkFailed)
    }
}
