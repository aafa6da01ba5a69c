//! A reader that goes over a text piece by piece.
ghost use Rattle.std.specs.Prelude.{◌≡◌, ◌+◌, ◌^◌, ◌<◌, ◌≤◌, true, length};
ghost use Rattle.pbn_text.specs.Reading.{Reads};

use crate::fault::TextFault;
use crate::items::{Item, piece_ahead};
use crate::scan::ends_line;
use byte_text::count_line_ends;
use std::alloc::Global;

/// A text that is being read: what is left of it, and at what line that begins.
#[derive(Debug, Drop)]
pub struct Reader<'a> {
    /// Whether what is left begins a line.
    pub at_front: bool,
    /// The number of its first line.
    pub line: u32,
    pub rest: &'a [u8],
}

impl<'a> Reader<'a> {
    pub fn new(text: &'a [u8]) -> Self
        ensures front { result.at_front ≡ true }
        ensures line { result.line ≡ 1 }
        ensures rest { result.rest.now ≡ text.now }
    {
        Reader {
            at_front: true,
            line: 1,
            rest: text,
        }
    }

    /// Reads the next piece.
    pub fn next(&mut self, alloc: Global) -> Result<Item, TextFault>
        requires left { 0 < length self.old.rest.now }
        requires lines { self.old.line + length self.old.rest.now < 2 ^ 32 }
        ensures reads { Reads self.old self.new result }
        ensures lines { self.new.line + length self.new.rest.now < 2 ^ 32 }
    {
        let (item, rest) = piece_ahead(alloc, self.at_front, self.line, self.rest)?;
        let taken = &self.rest[..self.rest.len() - rest.len()];
        self.line += count_line_ends(taken) as u32;
        self.at_front = ends_line(taken);
        self.rest = rest;
        Ok(item)
    }
}
