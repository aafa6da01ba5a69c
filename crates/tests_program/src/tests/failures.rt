//! Reads and writes that fail.
use super::queen::{QUEEN, QUEEN_LAYOUTS, QUEEN_REPORT, Sinks, ended, shelf_of, words_of};
use am_outside::{MemorySink, OpenGate};
use am_top::{FileWord, Status};
use byte_text::Text;
use std::alloc::{AllocError, Global};
use std::test::Fail;
use std::thread::Threads;

const SOLVE: &str = "--job solve --deal deal --layouts layouts --moves 2";

const CHECK: &str = "--job check --deal deal --layouts layouts --report report";

#[test]
fn failing_reads_end_a_run(rt: HostRuntime) -> Result<(), Fail> {
    let alloc = rt.alloc();
    let words = words_of(alloc, CHECK)?;
    for (call, file) in [
        (1, FileWord::Deal),
        (2, FileWord::Layouts),
        (3, FileWord::Report),
    ] {
        let mut shelf = shelf_of(alloc, QUEEN, QUEEN_LAYOUTS)?;
        shelf.add("report", QUEEN_REPORT.as_bytes())?;
        shelf.fail_at(call)?;
        let mut sinks = Sinks::new(alloc)?;
        let status = ended(&rt, alloc, &words, &mut shelf, &mut sinks, &OpenGate)?;
        assert!(rt; status == Status::Unread(file) && sinks.out.bytes().is_empty());
    }
    Ok(())
}

// Whether a run ends this way with these bytes written to the output, and then a line if it isn't
// done.
fn leaves<R: Threads + Sync>(
    rt: &R,
    alloc: Global,
    out: MemorySink,
    status: Status,
    written: &[u8],
) -> Result<bool, AllocError> {
    let words = words_of(alloc, SOLVE)?;
    let mut shelf = shelf_of(alloc, QUEEN, QUEEN_LAYOUTS)?;
    let err = MemorySink::new(alloc, 100, 0)?;
    let mut sinks = Sinks { out, err };
    let end = ended(rt, alloc, &words, &mut shelf, &mut sinks, &OpenGate)?;
    let line = if status == Status::Done {
        ""
    } else {
        "alphamu: cannot write\n"
    };
    let Sinks { out, err } = sinks;
    Ok(end == status && out.bytes() == written && err.bytes() == line.as_bytes())
}

#[test]
fn each_write_failing_in_turn(rt: HostRuntime) -> Result<(), Fail> {
    let alloc = rt.alloc();
    let mut written = Text::new(alloc);
    let mut write = 1;
    for piece in QUEEN_REPORT.as_bytes().chunks(7) {
        let out = MemorySink::in_steps(alloc, 1000, 7, write)?;
        assert!(rt; leaves(&rt, alloc, out, Status::Unwritten, written.bytes())?);
        written.push(piece)?;
        write = write.saturating_add(1);
    }
    let out = MemorySink::in_steps(alloc, 1000, 7, write)?;
    assert!(rt; leaves(&rt, alloc, out, Status::Done, QUEEN_REPORT.as_bytes())?);
    Ok(())
}
