// A sink that keeps what is written in memory.
ghost use Rattle.std.specs.Prelude.{◌≡◌, ◌-◌, ◌^◌, ◌≤◌, ◌↔◌, Some, length, IfOk, IsErr, IsTrue};
ghost use Rattle.am_outside.specs.MemorySink.{new_sink, next_write_fails, part_taken, after_write};

use crate::counts::count_one;
use crate::{Sink, SinkFailed};
use std::alloc::{AllocError, Global};
use std::marker::Model;

/// A sink that reports its bytes, has limited room, and can be made to take few bytes at a time and
/// to fail at one write.
#[derive(Debug, Drop)]
pub struct MemorySink {
    content: Vec<u8>,
    room: usize,
    step: usize,
    fail_at: u64,
    calls: u64,
    faults: u64,
}

impl Model for MemorySink {
    ghost use Rattle.std.specs.Prelude.{◌≤◌, length, vec_len, vec_capacity};
    ghost use Rattle.am_outside.specs.MemorySink.{MemorySinkValue};

    ghost Value = { MemorySinkValue };

    ghost view = { λ s. record {
      bytes = s.content.items;
      room = s.room;
      step = s.step;
      fail_at = s.fail_at;
      calls = s.calls;
      faults = s.faults;
    } };

    ghost invariant = { λ s.
        (vec_len s.content ≤ s.room) × (s.room ≤ vec_capacity s.content) × (1 ≤ s.step) };
}

impl MemorySink {
    /// An empty sink for at most `room` bytes. The write of number `fail_at`, from 1, fails; at 0
    /// none does.
    pub fn new(alloc: Global, room: usize, fail_at: u64) -> Result<Self, AllocError>
        ensures { IfOk result (λ sink. sink ≡ new_sink room (2 ^ 64 - 1) fail_at) }
    {
        MemorySink::in_steps(alloc, room, usize::MAX, fail_at)
    }

    /// The same with a write that takes at most `step` bytes, where `new` takes all that fit.
    pub fn in_steps(
        alloc: Global,
        room: usize,
        step: usize,
        fail_at: u64,
    ) -> Result<Self, AllocError>
        requires step { 1 ≤ step }
        ensures { IfOk result (λ sink. sink ≡ new_sink room step fail_at) }
    {
        Ok(MemorySink {
            content: Vec::with_capacity(alloc, room)?,
            room,
            step,
            fail_at,
            calls: 0,
            faults: 0,
        })
    }

    /// What was written, in order.
    pub fn bytes(&self) -> &[u8]
        ensures { result.now ≡ self.now.bytes }
    {
        &self.content
    }

    /// How many faults there were, up to 2^64 - 1.
    pub fn faults(&self) -> u64
        ensures { result ≡ self.now.faults }
    {
        self.faults
    }
}

impl Sink for MemorySink {
    ghost told = { λ sink. Some sink.bytes };

    ghost faults = { λ sink. sink.faults };

    ghost writes = { λ sink. sink.calls };

    fn write(&mut self, piece: &[u8]) -> Result<usize, SinkFailed>
        ensures failed { IsErr result ↔ IsTrue (next_write_fails self.old) }
        ensures taken { IfOk result (λ n. n ≡ length (part_taken self.old piece.now)) }
        ensures after { self.new ≡ after_write self.old piece.now }
    {
        self.calls = count_one(self.calls);
        if self.calls == self.fail_at {
            self.faults = count_one(self.faults);
            return Err(SinkFailed);
        }
        let taken = piece
            .len()
            .min(self.room - self.content.len())
            .min(self.step);
        if taken == 0 && !piece.is_empty() {
            self.faults = count_one(self.faults);
        }
        self.content.extend_from_slice(&piece[..taken]).unwrap();
        Ok(taken)
    }
}
