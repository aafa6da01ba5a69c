//! A log read from its text and written again.
use log_check::Log;
use log_texts::{LogFault, log_text, read_log};
use std::alloc::Global;
use std::test::Fail;

/// The log that a short text writes.
fn log_in(alloc: Global, text: &[u8]) -> Result<Log, LogFault> {
    if text.len() > 10_000 {
        return Err(LogFault::Memory);
    }
    read_log(alloc, text)
}

#[test]
fn what_is_read_is_written_again(rt: HostRuntime) -> Result<(), Fail> {
    let alloc = rt.alloc();
    let text = "alphamu log 1\njoin S2.HT.DA 26 1,4294967295 0,101,11\nleaf - 0 - 1\nend\n";
    let log = log_in(alloc, text.as_bytes()).expect(&rt, "a log");
    assert_eq!(rt; log_text(alloc, &log)?.bytes(), text.as_bytes());
    // The letters of a card are read in either case.
    let low = log_in(alloc, b"alphamu log 1\nleaf s2.hT 0 - 11\nend\n").expect(&rt, "a log");
    let high = b"alphamu log 1\nleaf S2.HT 0 - 11\nend\n";
    assert_eq!(rt; log_text(alloc, &low)?.bytes(), high.as_slice());
    Ok(())
}
