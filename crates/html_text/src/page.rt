//! A page as pieces.
ghost use Rattle.std.specs.Prelude.{◌≡◌, ◌++◌, ◌∷◌, [], IfOk, OnOk};
ghost use Rattle.std.specs.Fmt.{decimal};
ghost use Rattle.html_text.specs.Pages.{own as own_piece, told as told_piece, piece_text, written as written_as};

use crate::escape::push_escaped;
use byte_text::Text;
use std::alloc::{AllocError, Global};
use std::marker::Model;

/// A piece of a page: markup of its own, or text from outside.
#[derive(Debug, Drop)]
pub struct Piece {
    pub is_own: bool,
    pub bytes: Text,
}

/// A page: its pieces, in order.
#[derive(Debug, Drop)]
pub struct Page {
    alloc: Global,
    pieces: Vec<Piece>,
}

impl Model for Page {
    ghost use Rattle.std.specs.Prelude.{List};
    ghost use Rattle.html_text.specs.declared.page.Piece.{Piece};

    ghost Value = { List Piece };

    ghost view = { λ page. page.pieces.items };
}

impl Page {
    /// A page with nothing on it. It takes no memory.
    pub fn new(alloc: Global) -> Page
        ensures { result ≡ [] }
    {
        Page {
            alloc,
            pieces: Vec::new(alloc),
        }
    }

    // Adds a piece.
    fn add(&mut self, is_own: bool, text: &[u8]) -> Result<(), AllocError>
        ensures { OnOk result (self.new ≡ self.old
            ++ (record { is_own = is_own; bytes = text.now } ∷ [])) }
    {
        let bytes = Text::from_bytes(self.alloc, text)?;
        self.pieces.push(Piece { is_own, bytes })?;
        Ok(())
    }

    /// Adds markup of the page's own, which is a constant of the program: no text of a file is.
    pub fn own(&mut self, markup: &'static [u8]) -> Result<(), AllocError>
        ensures { OnOk result (self.new ≡ self.old ++ own_piece markup.now) }
    {
        self.add(true, markup)
    }

    /// Adds text, whatever it says.
    pub fn told(&mut self, text: &[u8]) -> Result<(), AllocError>
        ensures { OnOk result (self.new ≡ self.old ++ told_piece text.now) }
    {
        self.add(false, text)
    }

    /// Adds a number in decimal digits.
    pub fn number(&mut self, number: u64) -> Result<(), AllocError>
        ensures { OnOk result (self.new ≡ self.old ++ told_piece (decimal number)) }
    {
        let mut digits = Text::new(self.alloc);
        digits.push_number(self.alloc, number)?;
        self.told(digits.bytes())
    }

    /// Adds a number in decimal digits between markup of the page's own.
    pub fn number_between(
        &mut self,
        before: &'static [u8],
        number: u64,
        after: &'static [u8],
    ) -> Result<(), AllocError>
        ensures { OnOk result (self.new ≡ self.old
            ++ own_piece before.now ++ told_piece (decimal number) ++ own_piece after.now) }
    {
        self.own(before)?;
        self.number(number)?;
        self.own(after)
    }

    /// The page as it is written: text from outside is escaped.
    pub fn written(&self) -> Result<Text, AllocError>
        ensures { IfOk result (λ text. text ≡ written_as self.now) }
    {
        let mut text = Text::new(self.alloc);
        push_pieces(&mut text, self.alloc, &self.pieces)?;
        Ok(text)
    }
}

fn push_pieces(out: &mut Text, alloc: Global, pieces: &[Piece]) -> Result<(), AllocError>
    ensures { OnOk result (out.new ≡ out.old ++ written_as pieces.now) }
{
    for piece in pieces {
        push_piece(out, alloc, piece)?;
    }
    Ok(())
}

fn push_piece(out: &mut Text, alloc: Global, piece: &Piece) -> Result<(), AllocError>
    ensures { OnOk result (out.new ≡ out.old ++ piece_text piece.now) }
{
    if piece.is_own {
        out.push(piece.bytes.bytes())
    } else {
        push_escaped(out, alloc, piece.bytes.bytes())
    }
}
