//! Where things end: lines, comments, names, tokens and strings.
ghost use Rattle.std.specs.Prelude.{◌≡◌, ◌==◌, ◌≤◌, length, IfOk, IfSome};
ghost use Rattle.std.specs.List.{position_or_len};
ghost use Rattle.pbn_text.specs.Pieces.{ends_name, ends_token, past_line, is_blank_line};
ghost use Rattle.pbn_text.specs.Reading.{ends_line};
ghost use Rattle.pbn_text.specs.Strings.{string_len, unescaped};

use byte_text::{Text, are_blanks, is_blank};
use std::alloc::{AllocError, Global};

/// How many bytes stand before the first byte of this value, or in the whole text.
pub fn place_of(text: &[u8], byte: u8) -> usize
    ensures place { result ≡ position_or_len (λ b. b == byte) text.now }
    ensures inside { result ≤ length text.now }
{
    text.iter().position(|b| *b == byte).unwrap_or(text.len())
}

/// The end of the line, and what follows it.
pub fn past_line(text: &[u8]) -> &[u8]
    ensures { result.now ≡ past_line text.now }
{
    &text[place_of(text, b'\n')..]
}

/// Whether the line is made of blanks alone.
pub fn is_blank_line(text: &[u8]) -> bool
    ensures { result ≡ is_blank_line text.now }
{
    are_blanks(&text[..place_of(text, b'\n')])
}

/// Whether the last byte ends a line.
pub fn ends_line(bytes: &[u8]) -> bool
    ensures { result ≡ ends_line bytes.now }
{
    matches!(bytes, [.., b'\n'])
}

/// How many letters, digits and underscores a text begins with.
pub fn name_len(text: &[u8]) -> usize
    ensures len { result ≡ position_or_len ends_name text.now }
    ensures inside { result ≤ length text.now }
{
    text.iter()
        .position(|byte| !matches!(*byte, b'A'..=b'Z' | b'a'..=b'z' | b'0'..=b'9' | b'_'))
        .unwrap_or(text.len())
}

fn ends_token(byte: u8) -> bool
    ensures { result ≡ ends_token byte }
{
    is_blank(byte) || matches!(byte, b'\n' | b'[' | b'{' | b';' | b'"')
}

/// How many bytes at the front belong to a token that is no string.
pub fn token_len(text: &[u8]) -> usize
    ensures len { result ≡ position_or_len ends_token text.now }
    ensures inside { result ≤ length text.now }
{
    text.iter()
        .position(|byte| ends_token(*byte))
        .unwrap_or(text.len())
}

/// How many bytes a string takes after its opening quote, the closing quote counted; `None` where
/// its line ends before that.
pub fn string_len(text: &[u8]) -> Option<usize>
    ensures len { result ≡ string_len text.now }
    ensures inside { IfSome result (λ len. len ≤ length text.now) }
    ensures some { IfSome result (λ len. 1 ≤ len) }
{
    let mut len = 0;
    while len < text.len() {
        match text[len] {
            b'"' => return Some(len + 1),
            b'\n' => return None,
            b'\\' => {
                if len + 1 == text.len() {
                    return None;
                }
                if text[len + 1] == b'\n' {
                    return None;
                }
                len += 2;
            }
            _ => len += 1,
        }
    }
    None
}

/// The characters of a string, without each backslash that took another.
pub fn unescaped(alloc: Global, text: &[u8]) -> Result<Text, AllocError>
    ensures { IfOk result (λ value. value ≡ unescaped text.now) }
{
    let mut value = Text::new(alloc);
    let mut at = 0;
    while at < text.len() {
        if text[at] == b'\\' && at + 1 < text.len() {
            at += 1;
        }
        value.push(&[text[at]])?;
        at += 1;
    }
    Ok(value)
}
