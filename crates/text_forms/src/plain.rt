//! Plain text.
ghost use Rattle.std.specs.Prelude.{◌≡◌, ◌++◌, OnOk};
ghost use Rattle.std.specs.Fmt.{decimal};

use byte_text::Text;
use std::alloc::{AllocError, Global};

/// Appends a word and a number in decimal digits.
///
/// Errors: an allocation fails. Then the word may have been appended.
pub fn push_number(
    text: &mut Text,
    alloc: Global,
    word: &[u8],
    number: u64,
) -> Result<(), AllocError>
    ensures { OnOk result (text.new ≡ text.old ++ word.now ++ decimal number) }
{
    text.push(word)?;
    text.push_number(alloc, number)
}
