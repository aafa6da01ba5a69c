//! The program: real files and streams, an open gate and three defenders for the top call, and its
//! status for the system.
//! It builds on `am_top` for the call, on `am_outside` for files and streams, on `am_match` for the
//! defenders, and on `am_line` for the line that it writes if there is no memory for the words.
//! It promises nothing of its own: what is read, written and answered is the contract of
//! `am_top::run`.
#![tactic(auto)]

use am_line::refuse;
use am_match::{Defender, HighCard, LowCard};
use am_outside::{FileShelf, OpenGate, Shelf, Sink, StdSink};
use am_top::{Status, run};
use std::alloc::AllocError;
use std::process::ExitCode;
use std::thread::Threads;
use std::{env, io};

// The exit status if the system gives no list of words, for example because one isn't text.
const NO_WORDS: u8 = 64;

// The words without the program's name.
fn words_given(rt: &HostRuntime) -> io::Result<Vec<String>> {
    let all = env::args(rt)?;
    Ok(all.skip(1).collect::<Vec<String>>(rt.alloc())?)
}

// Runs the words at a table of two defenders playing low and a third, in reserve, playing high.
fn run_at_table<R: Threads + Sync + AllocGlobal, S: Shelf, O: Sink, E: Sink>(
    rt: &R,
    words: &[String],
    shelf: &mut S,
    out: &mut O,
    err: &mut E,
) -> Result<Status, AllocError> {
    let alloc = rt.alloc();
    let mut table: Vec<Box<dyn Defender>> = Vec::new(alloc);
    table.push(Box::new(alloc, LowCard::new())?)?;
    table.push(Box::new(alloc, LowCard::new())?)?;
    table.push(Box::new(alloc, HighCard::new())?)?;
    Ok(run(rt, alloc, words, shelf, out, err, &OpenGate, &mut table))
}

/// Runs the words that the system gives, and ends with the status's code.
fn main(rt: HostRuntime) -> ExitCode {
    let mut shelf = FileShelf::new(&rt);
    let mut out = StdSink::new(rt.stdout());
    let mut err = StdSink::new(rt.stderr());
    let status = match words_given(&rt) {
        Ok(words) => match run_at_table(&rt, &words, &mut shelf, &mut out, &mut err) {
            Ok(status) => status,
            Err(_) => refuse(Status::Memory, &mut err),
        },
        Err(error) if error.kind() == io::ErrorKind::OutOfMemory => {
            refuse(Status::Memory, &mut err)
        }
        Err(_) => return ExitCode::from(NO_WORDS),
    };
    ExitCode::from(status.code())
}
