// Where files are read from.
ghost use Rattle.std.specs.Prelude.{◌≡◌, ◌↔◌, ◌≤◌, ℕ, List, Option, Some, length, IfOk, IfSome, IsErrOf};
ghost use Rattle.std.specs.FinMap.{get};
ghost use Rattle.am_outside.specs.Faults.{Rose};
ghost use Rattle.am_outside.specs.Shelf.{Files, IsLonger, KeepsOthers};

use crate::Text;
use std::alloc::Global;
use thiserror::Error;

/// Why a file isn't read.
#[derive(Clone, Copy, Debug, PartialEq, Eq, Error)]
pub enum ShelfFault {
    /// The file isn't there, or reading it failed.
    #[error("the file can't be read")]
    Failed,
    /// The file has more bytes than the limit.
    #[error("the file is too long")]
    TooLong,
    #[error("out of memory")]
    Memory,
}

/// Files by their names, as they are read by the program.
pub trait Shelf {
    /// The files, if the shelf reports them.
    ghost told: { Self → Option Files };

    /// How many faults there were at a name. A shelf starts at 0, and a count at 2^64 - 1 stays
    /// there.
    ghost faults: { Self → List ℕ → ℕ };

    /// Reads the whole file of that name, which may have at most `limit` bytes.
    ///
    /// Errors: `Failed` if the file isn't there or can't be read, a fault at that name; `TooLong`
    /// if it has more bytes; `Memory`. The files stay as they are.
    fn read(&mut self, alloc: Global, name: &str, limit: u64) -> Result<Text, ShelfFault>
        ensures within { IfOk result (λ text. length text ≤ limit) }
        ensures failed { IsErrOf result ShelfFault.Failed
            → Rose (faults self.old name.now) (faults self.new name.now) }
        ensures never_falls { (other : List ℕ) → faults self.old other ≤ faults self.new other }

        // If the shelf reports its files.
        ensures same_files { told self.new ≡ told self.old }
        ensures file { IfOk result
            (λ text. IfSome (told self.old) (λ files. get files name.now ≡ Some text)) }
        ensures too_long { IfSome (told self.old) (λ files. IsErrOf result ShelfFault.TooLong ↔
            (IsLonger files name.now limit × ¬ (IsErrOf result ShelfFault.Failed)
            × ¬ (IsErrOf result ShelfFault.Memory))) }
        ensures others { IfSome (told self.old)
            (λ files. KeepsOthers files name.now (faults self.old) (faults self.new)) };
}
