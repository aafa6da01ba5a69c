//! Text with the signs of markup escaped.
ghost use Rattle.std.specs.Prelude.{◌≡◌, ◌++◌, OnOk, map, chars, encode_utf8_all};
ghost use Rattle.std.specs.List.{flat_map};
ghost use Rattle.html_text.specs.Escapes.{is_xml_char, shown_char, escape_sign, escape};

use byte_text::Text;
use std::alloc::{AllocError, Global};

/// Appends a text as it is written in HTML, both between tags and in a value between quotes of
/// either kind. `&`, `<`, `>`, `"` and `'` are written by their names. U+FFFD stands for bytes that
/// aren't UTF-8, as `String::from_utf8_lossy` has it, and for each character that XML refuses.
pub fn push_escaped(out: &mut Text, alloc: Global, text: &[u8]) -> Result<(), AllocError>
    ensures { OnOk result (out.new ≡ out.old ++ escape text.now) }
{
    let text = String::from_utf8_lossy(alloc, text)?;
    push_chars(out, text.as_str())
}

fn push_chars(out: &mut Text, text: &str) -> Result<(), AllocError>
    ensures { OnOk result (out.new ≡ out.old
        ++ encode_utf8_all (flat_map escape_sign (map shown_char (chars text.now)))) }
{
    for c in text.chars() {
        push_char(out, shown_char(c))?;
    }
    Ok(())
}

// A character as it is shown.
fn shown_char(c: char) -> char
    ensures { result ≡ shown_char c }
{
    if is_xml_char(c) {
        c
    } else {
        char::REPLACEMENT_CHARACTER
    }
}

// Whether this is a character of XML.
fn is_xml_char(c: char) -> bool
    ensures { result ≡ is_xml_char c }
{
    match c {
        '\t' | '\n' | '\r' => true,
        ' '..='\u{D7FF}' | '\u{E000}'..='\u{FFFD}' | '\u{10000}'..='\u{10FFFF}' => true,
        _ => false,
    }
}

fn push_char(out: &mut Text, c: char) -> Result<(), AllocError>
    ensures { OnOk result (out.new ≡ out.old ++ encode_utf8_all (escape_sign c)) }
{
    match c {
        '&' => out.push(b"&amp;"),
        '<' => out.push(b"&lt;"),
        '>' => out.push(b"&gt;"),
        '"' => out.push(b"&quot;"),
        '\'' => out.push(b"&#39;"),
        _ => out.push(c.encode_utf8(&mut [0; 4]).as_bytes()),
    }
}
