// A list of bytes that the product owns.
ghost use Rattle.std.specs.Prelude.{◌≡◌, [], ◌++◌, IfOk, OnOk, OnErr};
ghost use Rattle.std.specs.Fmt.{decimal};

use std::alloc::{AllocError, Global};
use std::marker::Model;

/// Bytes in a buffer of their own, in any encoding or none.
#[derive(Debug, Drop)]
pub struct Text {
    content: Vec<u8>,
}

impl Model for Text {
    ghost use Rattle.std.specs.Prelude.{List, ℕ};

    ghost Value = { List ℕ };

    ghost view = { λ text. text.content.items };
}

impl Text {
    /// A text with no bytes. It takes no memory.
    pub fn new(alloc: Global) -> Self
        ensures { result ≡ [] }
    {
        Text {
            content: Vec::new(alloc),
        }
    }

    /// A text of these bytes.
    pub fn from_bytes(alloc: Global, bytes: &[u8]) -> Result<Self, AllocError>
        ensures { IfOk result (λ text. text ≡ bytes.now) }
    {
        let mut text = Text::new(alloc);
        text.push(bytes)?;
        Ok(text)
    }

    /// Adds a piece at the end. If an allocation fails, the text is unchanged.
    pub fn push(&mut self, piece: &[u8]) -> Result<(), AllocError>
        ensures appended { OnOk result (self.new ≡ self.old ++ piece.now) }
        ensures unchanged { OnErr result (self.new ≡ self.old) }
    {
        self.content.extend_from_slice(piece)
    }

    /// Adds a number in decimal digits, without leading zeros. If an allocation fails, the text is
    /// unchanged.
    pub fn push_number(&mut self, alloc: Global, number: u64) -> Result<(), AllocError>
        ensures appended { OnOk result (self.new ≡ self.old ++ decimal number) }
        ensures unchanged { OnErr result (self.new ≡ self.old) }
    {
        let digits = format!(in alloc; "{number}")?;
        self.push(digits.as_bytes())
    }

    /// All the bytes, in order.
    pub fn bytes(&self) -> &[u8]
        ensures { result.now ≡ self.now }
    {
        &self.content
    }
}
