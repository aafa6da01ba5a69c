//! Lines that are appended to a text.
ghost use Rattle.std.specs.Prelude.{◌≡◌, ◌++◌, IfOk, OnOk};
ghost use Rattle.std.specs.Fmt.{decimal};
ghost use Rattle.byte_text.specs.Lines.{line_of};
ghost use Rattle.am_report.specs.Lines.{space_before};

use byte_text::Text;
use std::alloc::{AllocError, Global};

// Appends a line with a word and what follows it.
pub(crate) fn push_line(text: &mut Text, word: &[u8], value: &[u8]) -> Result<(), AllocError>
    ensures { OnOk result (text.new ≡ text.old ++ line_of (word.now ++ value.now)) }
{
    text.push(word)?;
    text.push(value)?;
    text.push(b"\n")
}

// Appends a line with a word and a number.
pub(crate) fn push_number_line(
    text: &mut Text,
    alloc: Global,
    word: &[u8],
    number: u64,
) -> Result<(), AllocError>
    ensures { OnOk result (text.new ≡ text.old ++ line_of (word.now ++ decimal number)) }
{
    text.push(word)?;
    text.push_number(alloc, number)?;
    text.push(b"\n")
}

// Appends a space, but in front of the first of a list.
pub(crate) fn push_space(text: &mut Text, place: usize) -> Result<(), AllocError>
    ensures { OnOk result (text.new ≡ text.old ++ space_before place) }
{
    if place == 0 { Ok(()) } else { text.push(b" ") }
}

// A text of three lines: its title, a word with a number, and a verdict.
pub(crate) fn verdict_text(
    alloc: Global,
    title: &[u8],
    word: &[u8],
    number: u32,
    verdict: &[u8],
) -> Result<Text, AllocError>
    ensures { IfOk result (λ text. text ≡ line_of title.now ++ line_of (word.now ++ decimal number)
        ++ line_of verdict.now) }
{
    let mut text = Text::new(alloc);
    push_line(&mut text, title, b"")?;
    push_number_line(&mut text, alloc, word, u64::from(number))?;
    push_line(&mut text, verdict, b"")?;
    Ok(text)
}
