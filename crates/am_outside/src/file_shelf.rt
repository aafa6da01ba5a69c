// The files of the system as a shelf. It is trusted that they give what they hold.
ghost use Rattle.std.specs.Prelude.{◌≡◌, ◌+◌, ◌<◌, ◌≤◌, None, length, IfOk, IfSome, IsErrOf, if◌then◌else◌};
ghost use Rattle.am_outside.specs.Faults.{one_more};
ghost use Rattle.am_outside.specs.Shelf.{has_failed};

use crate::counts::count_one;
use crate::{Shelf, ShelfFault, Text};
use std::alloc::Global;
use std::fs::File;
use std::io::Read;
use std::marker::Model;
use std::rt::Files;

/// The files by their paths. It tells nothing, and counts every error at every name alike.
#[derive(Drop)]
pub struct FileShelf<'a, R: Files> {
    files: &'a R,
    faults: u64,
}

// It is seen as its count of faults.
impl<'a, R: Files> Model for FileShelf<'a, R> {
    ghost use Rattle.std.specs.Prelude.{ℕ};

    ghost Value = { ℕ };

    ghost view = { λ shelf. shelf.faults };
}

impl<'a, R: Files> FileShelf<'a, R> {
    /// A shelf that has seen no fault.
    pub fn new(files: &'a R) -> Self
        ensures { result ≡ 0 }
    {
        FileShelf { files, faults: 0 }
    }
}

impl<R: Files> Shelf for FileShelf<'_, R> {
    ghost told = { λ _. None };

    ghost faults = { λ faults _. faults };

    /// Reads at most `limit + 1` bytes. Each error is a fault.
    fn read(&mut self, alloc: Global, name: &str, limit: u64) -> Result<Text, ShelfFault>
        ensures within { IfOk result (λ text. length text ≤ limit) }
        ensures counted { self.new ≡ (if has_failed result then one_more self.old else self.old) }
    {
        let text = match File::open(self.files, name) {
            Ok(mut file) => read_all(alloc, &mut file, limit),
            Err(_) => Err(ShelfFault::Failed),
        };
        if matches!(text, Err(ShelfFault::Failed)) {
            self.faults = count_one(self.faults);
        }
        text
    }
}

// Reads to the end, unless there are more bytes than the limit: at most one byte past it, at least
// one a turn. `Failed` is an error of the reader.
fn read_all<R: Read>(alloc: Global, reader: &mut R, limit: u64) -> Result<Text, ShelfFault>
    ensures within { IfOk result (λ text. length text ≤ limit) }
    ensures whole { IfSome (R.remaining reader.old) (λ bytes. IfOk result (λ text. text ≡ bytes)) }
    ensures too_long { IfSome (R.remaining reader.old)
        (λ bytes. IsErrOf result ShelfFault.TooLong → limit < length bytes) }
    ensures few { IfSome (R.remaining reader.old) (λ bytes. IfSome (R.remaining reader.new) (λ rest.
        length bytes ≤ length rest + limit + 1)) }
{
    let mut text = Text::new(alloc);
    let mut chunk = [0; 4096];
    let mut left = limit;
    loop {
        let wanted = left.min(4095) as usize + 1;
        let got = match reader.read(&mut chunk[..wanted]) {
            Ok(got) => got,
            Err(_) => return Err(ShelfFault::Failed),
        };
        if got == 0 {
            return Ok(text);
        }
        if got as u64 > left {
            return Err(ShelfFault::TooLong);
        }
        let Ok(()) = text.push(&chunk[..got]) else {
            return Err(ShelfFault::Memory);
        };
        left -= got as u64;
    }
}
