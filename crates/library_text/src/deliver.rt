//! A text, or the line that says why there is none, in the caller's buffer.
ghost use Rattle.std.specs.Prelude.{◌≡◌, ◌⊎◌, ◌≤◌, ◌<◌, IfOk, length, take};
ghost use Rattle.am_answer.specs.Codes.{code_of};
ghost use Rattle.am_answer.specs.Lines.{status_line};
ghost use Rattle.library_text.specs.Requests.{request_of};
ghost use Rattle.library_text.specs.Answered.{HasLine, IsAnswered};

use crate::request::Request;
use crate::texts::text_for;
use am_answer::Status;
use am_line::refuse;
use am_outside::MemorySink;
use std::alloc::{AllocError, Global};

/// The number that says that the whole text is there.
const DONE: u32 = 0;

/// The number that says that the text needs more room.
const NO_ROOM: u32 = 8;

/// Room for the line of any status.
const LINE_ROOM: usize = 256;

// Puts the first bytes into the buffer, as many as there is room for.
fn put(bytes: &[u8], out: &mut [u8]) -> usize
    ensures within { result ≤ length out.new }
    ensures bytes { take result out.new ≡ take (length out.new) bytes.now }
    ensures all { length bytes.now ≤ length out.old
        → (result ≡ length bytes.now) × (take result out.new ≡ bytes.now) }
{
    let count = bytes.len().min(out.len());
    out[..count].copy_from_slice(&bytes[..count]);
    count
}

// A whole text, if there is room for it.
fn put_text(text: &[u8], out: &mut [u8], written: &mut usize) -> u32
    ensures ends { (result ≡ 0) ⊎ (result ≡ 8) }
    ensures done { result ≡ 0
        → (written.new ≤ length out.new) × (take written.new out.new ≡ text.now) }
    ensures no_room { result ≡ 8 → (out.new ≡ out.old) × (length out.old < length text.now)
        × (written.new ≡ length text.now) }
{
    if text.len() > out.len() {
        *written = text.len();
        return NO_ROOM;
    }
    *written = put(text, out);
    DONE
}

// The line of a status.
fn put_line(line: &[u8], status: &Status, out: &mut [u8], written: &mut usize) -> u32
    requires { line.now ≡ status_line status.now }
    ensures number { result ≡ code_of status.now }
    ensures line { HasLine status.now out.new written.new }
{
    *written = put(line, out);
    u32::from(status.code())
}

// The line of a status, in memory of its own.
fn line_of(alloc: Global, status: &Status) -> Result<MemorySink, AllocError>
    ensures { IfOk result (λ line. line.bytes ≡ status_line status.now) }
{
    let mut line = MemorySink::new(alloc, LINE_ROOM, 0)?;
    let _ = refuse(*status, &mut line);
    if line.faults() == 0 {
        Ok(line)
    } else {
        Err(AllocError)
    }
}

// The line of a status, or that of a failed allocation.
#[tactic(auto, unfolding(am_answer::specs::Lines::status_line))]
fn put_refusal(alloc: Global, status: Status, out: &mut [u8], written: &mut usize) -> u32
    ensures { (said : Status) × ((said ≡ status) ⊎ (said ≡ Status.Memory))
        × (result ≡ code_of said) × HasLine said out.new written.new }
{
    match line_of(alloc, &status) {
        Ok(line) => put_line(line.bytes(), &status, out, written),
        Err(_) => put_line(b"alphamu: out of memory\n", &Status::Memory, out, written),
    }
}

/// Answers what is asked. 0: the first `written` bytes of `out` are the text. 8: the text needs
/// room for `written` bytes, and `out` is as it was. Any other number is that of the program's
/// status, and the first `written` bytes of `out` are its line, or as much of it as there is room
/// for.
pub fn answer(alloc: Global, request: Request<&[u8]>, out: &mut [u8], written: &mut usize) -> u32
    ensures { IsAnswered (request_of request.entry) result out.old out.new written.new }
{
    match text_for(alloc, request) {
        Ok(text) => put_text(text.bytes(), out, written),
        Err(status) => put_refusal(alloc, status, out, written),
    }
}
