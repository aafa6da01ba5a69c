//! Tag pairs, each on a line of its own.
ghost use Rattle.std.specs.Prelude.{◌≡◌, ◌++◌, ◌∷◌, [], OnOk, option_copied};
ghost use Rattle.std.specs.Fmt.{decimal};
ghost use Rattle.pbn_plain.specs.PlainText.{escaped};
ghost use Rattle.pbn_deal.specs.Tags.{tag_named};
ghost use Rattle.pbn_games.specs.GameText.{tag_line, copied_line};

use byte_text::Text;
use pbn_text::{Game, Tag};
use std::alloc::{AllocError, Global};

// Appends characters, with a backslash before each quote and each backslash.
fn push_escaped(text: &mut Text, characters: &[u8]) -> Result<(), AllocError>
    ensures { OnOk result (text.new ≡ text.old ++ escaped characters.now) }
{
    for byte in characters {
        push_character(text, *byte)?;
    }
    Ok(())
}

fn push_character(text: &mut Text, byte: u8) -> Result<(), AllocError>
    ensures { OnOk result (text.new ≡ text.old ++ escaped (byte ∷ [])) }
{
    if byte == b'"' || byte == b'\\' {
        text.push(&[b'\\', byte])
    } else {
        text.push(&[byte])
    }
}

/// Appends a tag pair.
pub fn push_tag(text: &mut Text, name: &[u8], value: &[u8]) -> Result<(), AllocError>
    ensures { OnOk result (text.new ≡ text.old ++ tag_line name.now value.now) }
{
    text.push(b"[")?;
    text.push(name)?;
    text.push(b" \"")?;
    push_escaped(text, value)?;
    text.push(b"\"]\n")
}

/// Appends a tag pair whose value is a number.
pub fn push_number_tag(
    text: &mut Text,
    alloc: Global,
    name: &[u8],
    number: u64,
) -> Result<(), AllocError>
    ensures { OnOk result (text.new ≡ text.old ++ tag_line name.now (decimal number)) }
{
    let mut value = Text::new(alloc);
    value.push_number(alloc, number)?;
    push_tag(text, name, value.bytes())
}

// The first tag of a name.
fn find_tag<'a>(game: &'a Game, name: &[u8]) -> Option<&'a Tag>
    ensures { option_copied result ≡ tag_named name.now game.now }
{
    game.tags.iter().find(|tag| tag.name.bytes() == name)
}

/// Appends a tag pair as a game has it, if it does.
pub fn push_copied(text: &mut Text, name: &[u8], game: &Game) -> Result<(), AllocError>
    ensures { OnOk result (text.new
        ≡ text.old ++ copied_line name.now (tag_named name.now game.now)) }
{
    match find_tag(game, name) {
        Some(tag) => push_tag(text, name, tag.value.bytes()),
        None => Ok(()),
    }
}
