// A shelf that keeps its files in memory.
ghost use Rattle.std.specs.Prelude.{◌≡◌, ◌↔◌, ◌<◌, ◌≤◌, ◌++◌, ◌∷◌, [], Some, length, position, IfOk, OnOk, OnErr, IsErrOf, IsTrue, IsFalse};
ghost use Rattle.std.specs.FinMap.{get};
ghost use Rattle.std.specs.Option.{option_copied};
ghost use Rattle.std.specs.Str.{bytes_eq};
ghost use Rattle.am_outside.specs.Shelf.{IsLonger};
ghost use Rattle.am_outside.specs.MemoryShelf.{new_shelf, faults_at, with_file, is_listed, next_read_fails, with_call, with_fault, after_read};

use crate::counts::count_one;
use crate::{Shelf, ShelfFault, Text};
use std::alloc::{AllocError, Global};
use std::marker::Model;

#[derive(Debug, Drop)]
struct StoredFile {
    name: Text,
    bytes: Text,
    faults: u64,
}

/// A shelf that reports its files, and can be made to fail at some reads.
#[derive(Debug, Drop)]
pub struct MemoryShelf {
    alloc: Global,
    files: Vec<StoredFile>,
    shared_faults: u64,
    calls: u64,
    fail_list: Vec<u64>,
}

impl Model for MemoryShelf {
    ghost use Rattle.std.specs.Prelude.{map};
    ghost use Rattle.std.specs.FinMap.{from_entries};
    ghost use Rattle.am_outside.specs.MemoryShelf.{MemoryShelfValue, shelf_state_code};

    ghost Value = { MemoryShelfValue };

    ghost coded = { shelf_state_code };

    ghost view = { λ s. record {
      files = from_entries (map (λ f. (f.name, f.bytes)) s.files.items);
      own_faults = from_entries (map (λ f. (f.name, f.faults)) s.files.items);
      shared_faults = s.shared_faults;
      calls = s.calls;
      fail_list = s.fail_list.items;
    } };
}

impl MemoryShelf {
    /// A shelf with no files, on which no read is made to fail. It takes no memory.
    pub fn new(alloc: Global) -> Self
        ensures { result ≡ new_shelf }
    {
        MemoryShelf {
            alloc,
            files: Vec::new(alloc),
            shared_faults: 0,
            calls: 0,
            fail_list: Vec::new(alloc),
        }
    }

    /// Puts a file under a name, in the place of one that is there. A new name starts with the
    /// faults that the names without files share.
    pub fn add(&mut self, name: &str, bytes: &[u8]) -> Result<(), AllocError>
        ensures added { OnOk result (self.new ≡ with_file self.old name.now bytes.now) }
        ensures unchanged { OnErr result (self.new ≡ self.old) }
    {
        let content = Text::from_bytes(self.alloc, bytes)?;
        match place_of(&self.files, name) {
            Some(place) => self.files[place].bytes = content,
            None => {
                let key = Text::from_bytes(self.alloc, name.as_bytes())?;
                self.files.push(StoredFile {
                    name: key,
                    bytes: content,
                    faults: self.shared_faults,
                })?;
            }
        }
        Ok(())
    }

    /// Makes the read of that number fail. The first read is number 1.
    pub fn fail_at(&mut self, call: u64) -> Result<(), AllocError>
        ensures listed { OnOk result
            (self.new ≡ record self.old { fail_list = self.old.fail_list ++ call ∷ [] }) }
        ensures unchanged { OnErr result (self.new ≡ self.old) }
    {
        self.fail_list.push(call)?;
        Ok(())
    }

    /// How many faults there were at a name, up to 2^64 - 1.
    pub fn faults(&self, name: &str) -> u64
        ensures { result ≡ faults_at self.now name.now }
    {
        match place_of(&self.files, name) {
            Some(place) => self.files[place].faults,
            None => self.shared_faults,
        }
    }

    // The bytes of the file of that name.
    fn file(&self, name: &str) -> Option<&[u8]>
        ensures { option_copied result ≡ get self.now.files name.now }
    {
        match place_of(&self.files, name) {
            Some(place) => Some(self.files[place].bytes.bytes()),
            None => None,
        }
    }

    // Whether the number of the next read is on the fail list.
    fn is_listed(&self) -> bool
        ensures { result ≡ is_listed self.now }
    {
        self.fail_list.contains(&count_one(self.calls))
    }

    fn count_call(&mut self)
        ensures { self.new ≡ with_call self.old }
    {
        self.calls = count_one(self.calls);
    }

    fn count_fault(&mut self, name: &str)
        ensures { self.new ≡ with_fault self.old name.now }
    {
        match place_of(&self.files, name) {
            Some(place) => {
                let file = &mut self.files[place];
                file.faults = count_one(file.faults);
            }
            None => self.shared_faults = count_one(self.shared_faults),
        }
    }
}

impl Shelf for MemoryShelf {
    ghost told = { λ shelf. Some shelf.files };

    ghost faults = { faults_at };

    fn read(&mut self, alloc: Global, name: &str, limit: u64) -> Result<Text, ShelfFault>
        ensures failed { IsErrOf result ShelfFault.Failed
            ↔ IsTrue (next_read_fails self.old name.now) }
        ensures too_long { IsErrOf result ShelfFault.TooLong ↔
            (IsFalse (next_read_fails self.old name.now) × IsLonger self.old.files name.now limit) }
        ensures file { IfOk result (λ text. get self.old.files name.now ≡ Some text) }
        ensures within { IfOk result (λ text. length text ≤ limit) }
        ensures after { self.new ≡ after_read self.old name.now }
    {
        let is_listed = self.is_listed();
        self.count_call();
        match self.file(name) {
            Some(bytes) if !is_listed => copy_within(alloc, bytes, limit),
            _ => {
                self.count_fault(name);
                Err(ShelfFault::Failed)
            }
        }
    }
}

// A text of these bytes, unless there are more than the limit.
fn copy_within(alloc: Global, bytes: &[u8], limit: u64) -> Result<Text, ShelfFault>
    ensures text { IfOk result (λ text. text ≡ bytes.now) }
    ensures not_failed { ¬ (IsErrOf result ShelfFault.Failed) }
    ensures too_long { IsErrOf result ShelfFault.TooLong ↔ (limit < length bytes.now) }
{
    if bytes.len() as u64 > limit {
        return Err(ShelfFault::TooLong);
    }
    match Text::from_bytes(alloc, bytes) {
        Ok(text) => Ok(text),
        Err(_) => Err(ShelfFault::Memory),
    }
}

// The place of the first file of that name.
fn place_of(files: &[StoredFile], name: &str) -> Option<usize>
    ensures { result ≡ position (λ file. bytes_eq file.name name.now) files.now }
{
    files
        .iter()
        .position(|file| file.name.bytes() == name.as_bytes())
}
