//! The lines of a text.
ghost use Rattle.std.specs.Prelude.{◌≡◌, ◌++◌, OnOk};
ghost use Rattle.told_words.specs.Words.{indent, before, line_end, going_on, further_in};
ghost use Rattle.told_words.specs.Words.{winner_text, after_winner};

use crate::phrases::push_seat;
use byte_text::Text;
use card_sets::{Compass, Seat};
use std::alloc::AllocError;

/// A line that is written.
#[derive(Clone, Copy, Debug)]
pub struct Line {
    /// Declarer's place at the table.
    pub declarer: Compass,
    /// The steps of indentation.
    pub depth: u8,
    /// Whether words follow its colon by now.
    pub begun: bool,
}

/// Appends the spaces before a line.
pub fn push_indent(out: &mut Text, depth: u8) -> Result<(), AllocError>
    ensures { OnOk result (out.new ≡ out.old ++ indent depth) }
{
    for _ in 0..depth {
        out.push(b"  ")?;
    }
    Ok(())
}

/// Appends who won the trick, if it is known.
pub fn push_winner(out: &mut Text, line: Line, winner: Option<Seat>) -> Result<(), AllocError>
    ensures { OnOk result (out.new ≡ out.old ++ winner_text line winner) }
{
    let Some(seat) = winner else {
        return Ok(());
    };
    out.push(line.before())?;
    push_seat(out, line.declarer, seat)?;
    out.push(b" wins the trick")
}

impl Line {
    /// What comes before its next words.
    pub fn before(self) -> &'static [u8]
        ensures { result.now ≡ before self }
    {
        if self.begun { b"; " } else { b" " }
    }

    /// Its end.
    pub fn end(self) -> &'static [u8]
        ensures { result.now ≡ line_end self }
    {
        if self.begun { b".\n" } else { b"\n" }
    }

    /// The line with words on it.
    pub fn going_on(self) -> Line
        ensures { result ≡ going_on self }
    {
        Line {
            declarer: self.declarer,
            depth: self.depth,
            begun: true,
        }
    }

    /// The line after it was said who won the trick, if it is known.
    pub fn after_winner(self, winner: Option<Seat>) -> Line
        ensures { result ≡ after_winner self winner }
    {
        match winner {
            None => self,
            Some(_) => self.going_on(),
        }
    }

    /// A line one step further in.
    pub fn further_in(self) -> Line
        ensures { result ≡ further_in self }
    {
        Line {
            declarer: self.declarer,
            depth: self.depth.saturating_add(1),
            begun: false,
        }
    }
}
