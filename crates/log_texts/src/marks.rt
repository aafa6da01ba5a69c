//! The pieces between the marks in a text.
ghost use Rattle.std.specs.Prelude.{◌≡◌, ◌<◌, ◌∷◌, [], length, MatchOption};
ghost use Rattle.log_texts.specs.Reading.{pieces_at};

/// The piece before the first mark in a text, and what follows the mark if there is one.
pub fn split_at_mark(text: &[u8], mark: u8) -> (&[u8], Option<&[u8]>)
    ensures pieces { MatchOption result.1
        (pieces_at mark text.now ≡ result.0.now ∷ [])
        (λ rest. pieces_at mark text.now ≡ result.0.now ∷ pieces_at mark rest.now) }
    ensures shorter { MatchOption result.1 (length result.0.now ≡ length text.now)
        (λ rest. length rest.now < length text.now) }
{
    match text.iter().position(|byte| *byte == mark) {
        Some(end) => (&text[..end], Some(&text[end + 1..])),
        None => (text, None),
    }
}
