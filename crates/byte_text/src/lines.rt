//! Lines, and words at the front of a text.
ghost use Rattle.std.specs.Prelude.{◌≡◌, ◌<◌, ◌≤◌, ◌+◌, ◌-◌, ◌^◌, ◌∷◌, [], length, position, count_by, IfSome, MatchOption};
ghost use Rattle.std.specs.List.{slice_split};
ghost use Rattle.std.specs.Option.{option_copied};
ghost use Rattle.byte_text.specs.Lines.{is_line_end, line_number, text_after, line_at};

/// What follows a word at the front of a text.
pub fn text_after<'a>(text: &'a [u8], word: &[u8]) -> Option<&'a [u8]>
    ensures { option_copied result ≡ text_after word.now text.now }
{
    text.strip_prefix(word)
}

// The place of the first line end.
fn line_end(text: &[u8]) -> Option<usize>
    ensures value { result ≡ position is_line_end text.now }
    ensures within { IfSome result (λ end. end < length text.now) }
{
    text.iter().position(|byte| *byte == b'\n')
}

/// The line that begins at a place, without its end; `None` if the text ends before the line does.
pub fn line_at(bytes: &[u8], at: usize) -> Option<&[u8]>
    requires { at ≤ length bytes.now }
    ensures value { option_copied result ≡ line_at bytes.now at }
    ensures within { IfSome result (λ line. at + length line.now + 1 ≤ length bytes.now) }
{
    let rest = &bytes[at..];
    Some(&rest[..line_end(rest)?])
}

/// The first line of a text, and what follows its line end if it has one.
pub fn split_line(text: &[u8]) -> (&[u8], Option<&[u8]>)
    ensures line { MatchOption result.1
        (slice_split is_line_end text.now ≡ result.0.now ∷ [])
        (λ rest. slice_split is_line_end text.now
        ≡ result.0.now ∷ slice_split is_line_end rest.now) }
    ensures shorter { MatchOption result.1 (length result.0.now ≡ length text.now)
        (λ rest. length rest.now < length text.now) }
{
    match text.iter().position(|byte| *byte == b'\n') {
        Some(end) => (&text[..end], Some(&text[end + 1..])),
        None => (text, None),
    }
}

/// How many line ends a text has.
pub fn count_line_ends(text: &[u8]) -> usize
    ensures value { result ≡ count_by is_line_end text.now }
    ensures inside { result ≤ length text.now }
{
    text.iter().filter(|byte| **byte == b'\n').count()
}

/// The number, from 1, of the line in which a place lies; past the end that of the last line.
pub fn line_number(bytes: &[u8], at: usize) -> u32
    requires { length bytes.now < 2 ^ 32 - 1 }
    ensures value { result ≡ line_number bytes.now at }
    ensures bound { result ≤ at + 1 }
{
    let end = at.min(bytes.len());
    1 + count_line_ends(&bytes[..end]) as u32
}
