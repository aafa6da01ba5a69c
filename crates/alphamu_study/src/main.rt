//! The program: real files and streams for the call of `study_top`, and its status for the system.
//! It builds on `study_top` for the call, on `am_outside` for files and streams, and on `am_line`
//! for the line that it writes if there is no memory for the words.
//! It promises nothing of its own: what is read, written and answered is the contract of
//! `study_top::run_study`.
#![tactic(auto)]

use am_line::refuse;
use am_outside::{FileShelf, StdSink};
use std::process::ExitCode;
use std::{env, io};
use study_top::{Status, run_study};

// The exit status if the system gives no list of words, for example because one isn't text.
const NO_WORDS: u8 = 64;

// The words without the program's name.
fn words_given(rt: &HostRuntime) -> io::Result<Vec<String>> {
    let all = env::args(rt)?;
    Ok(all.skip(1).collect::<Vec<String>>(rt.alloc())?)
}

/// Runs the words that the system gives, and ends with the status's code.
fn main(rt: HostRuntime) -> ExitCode {
    let mut shelf = FileShelf::new(&rt);
    let mut out = StdSink::new(rt.stdout());
    let mut err = StdSink::new(rt.stderr());
    let status = match words_given(&rt) {
        Ok(words) => run_study(&rt, &words, &mut shelf, &mut out, &mut err),
        Err(error) if error.kind() == io::ErrorKind::OutOfMemory => {
            refuse(Status::Memory, &mut err)
        }
        Err(_) => return ExitCode::from(NO_WORDS),
    };
    ExitCode::from(status.code())
}
