//! What a text begins with.
ghost use Rattle.std.specs.Prelude.{◌<◌, length};
ghost use Rattle.pbn_text.specs.Pieces.{token_ahead, comment_ahead, string_ahead, tag_ahead, in_line_ahead, piece_ahead};
ghost use Rattle.pbn_text.specs.Strings.{string_len};
ghost use Rattle.pbn_text.specs.Reading.{Finds};

use crate::fault::{Syntax, TextFault};
use crate::game::Token;
use crate::scan::{is_blank_line, name_len, past_line, place_of, string_len, token_len, unescaped};
use byte_text::{Text, skip_blanks};
use std::alloc::Global;

/// What a text begins with.
#[derive(Debug, Drop)]
pub enum Item {
    /// A blank, the end of a line, a comment or a line that is skipped.
    Passed,
    /// A line of blanks alone.
    GameEnd,
    /// A tag pair, with the line of its opening bracket.
    Tag { name: Text, value: Text, line: u32 },
    Token(Token),
}

// A comment, after its opening brace.
#[tactic(auto, unfolding(crate::specs::Pieces::comment_ahead))]
fn comment_ahead(line: u32, text: &[u8]) -> Result<(Item, &[u8]), TextFault>
    ensures { Finds result (comment_ahead line text.now) }
{
    let end = place_of(text, b'}');
    if end < text.len() {
        Ok((Item::Passed, &text[end + 1..]))
    } else {
        Err(TextFault::Syntax {
            line,
            kind: Syntax::OpenBrace,
        })
    }
}

// A string that is a token, after its opening quote.
fn string_ahead(alloc: Global, line: u32, text: &[u8]) -> Result<(Item, &[u8]), TextFault>
    ensures { Finds result (string_ahead line text.now (string_len text.now)) }
{
    let Some(len) = string_len(text) else {
        return Err(TextFault::Syntax {
            line,
            kind: Syntax::OpenString,
        });
    };
    let (inside, rest) = text.split_at(len);
    let mut token = Text::from_bytes(alloc, b"\"")?;
    token.push(inside)?;
    Ok((Item::Token(Token { text: token, line }), rest))
}

// A tag pair, after its opening bracket.
#[tactic(auto, unfolding(crate::specs::Pieces::tag_ahead))]
fn tag_ahead(alloc: Global, line: u32, text: &[u8]) -> Result<(Item, &[u8]), TextFault>
    ensures { Finds result (tag_ahead line text.now) }
{
    let bad = TextFault::Syntax {
        line,
        kind: Syntax::BadTag,
    };
    let named = skip_blanks(text);
    let (name, after_name) = named.split_at(name_len(named));
    if name.is_empty() {
        return Err(bad);
    }
    let [b'"', quoted @ ..] = skip_blanks(after_name) else {
        return Err(bad);
    };
    let Some(len) = string_len(quoted) else {
        return Err(TextFault::Syntax {
            line,
            kind: Syntax::OpenString,
        });
    };
    let (value, after_value) = quoted.split_at(len);
    let [b']', rest @ ..] = skip_blanks(after_value) else {
        return Err(bad);
    };
    let tag = Item::Tag {
        name: Text::from_bytes(alloc, name)?,
        value: unescaped(alloc, &value[..len - 1])?,
        line,
    };
    Ok((tag, rest))
}

// A token that is no string.
fn token_ahead(alloc: Global, line: u32, text: &[u8]) -> Result<(Item, &[u8]), TextFault>
    ensures { Finds result (token_ahead line text.now) }
{
    let (token, rest) = text.split_at(token_len(text));
    let text = Text::from_bytes(alloc, token)?;
    Ok((Item::Token(Token { text, line }), rest))
}

// What a text begins with inside a line.
fn in_line_ahead(alloc: Global, line: u32, text: &[u8]) -> Result<(Item, &[u8]), TextFault>
    requires { 0 < length text.now }
    ensures { Finds result (in_line_ahead line text.now) }
{
    match text {
        [b'\n' | b' ' | b'\t' | b'\r', rest @ ..] => Ok((Item::Passed, rest)),
        [b'{', rest @ ..] => comment_ahead(line, rest),
        [b';', rest @ ..] => Ok((Item::Passed, past_line(rest))),
        [b'"', rest @ ..] => string_ahead(alloc, line, rest),
        [b'[', rest @ ..] => tag_ahead(alloc, line, rest),
        _ => token_ahead(alloc, line, text),
    }
}

/// What a text begins with, at the front of a line or inside one, and what follows it.
#[tactic(auto, unfolding(crate::specs::Pieces::piece_ahead))]
pub fn piece_ahead(
    alloc: Global,
    at_front: bool,
    line: u32,
    text: &[u8],
) -> Result<(Item, &[u8]), TextFault>
    requires { 0 < length text.now }
    ensures { Finds result (piece_ahead at_front line text.now) }
{
    if at_front && text[0] == b'%' {
        return Ok((Item::Passed, past_line(text)));
    }
    if at_front && is_blank_line(text) {
        let end = place_of(text, b'\n');
        let rest = if end < text.len() {
            &text[end + 1..]
        } else {
            &[]
        };
        return Ok((Item::GameEnd, rest));
    }
    in_line_ahead(alloc, line, text)
}
