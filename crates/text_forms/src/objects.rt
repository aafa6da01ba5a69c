//! Strings and lines of JSON.
ghost use Rattle.std.specs.Prelude.{◌≡◌, ◌∷◌, [], false, IfOk, string_bytes};
ghost use Rattle.serde_json.specs.View.{view};
ghost use Rattle.serde_json.specs.Written.{has_float};
ghost use Rattle.card_letters.specs.Letters.{compass_letter, letters_of};
ghost use Rattle.text_forms.specs.Objects.{json_line};

use byte_text::Text;
use card_letters::{compass_letter, letters_of};
use card_sets::{Card, Compass};
use serde_json::Value;
use std::alloc::{AllocError, Global};

/// The letters of a card as a string.
pub fn card_string(alloc: Global, card: Card) -> Result<String, AllocError>
    ensures { IfOk result (λ string. string_bytes string ≡ letters_of card) }
{
    String::from_utf8_lossy(alloc, &letters_of(card))
}

/// The letter of a compass point as a string.
pub fn compass_string(alloc: Global, seat: Compass) -> Result<String, AllocError>
    ensures { IfOk result (λ string. string_bytes string ≡ compass_letter seat ∷ []) }
{
    String::from_utf8_lossy(alloc, &[compass_letter(seat)])
}

/// A value without blanks, and a line feed at its end. Its text is said of values whose numbers are
/// all whole.
///
/// Errors: an allocation fails.
pub fn json_line(alloc: Global, value: &Value) -> Result<Text, AllocError>
    ensures { IfOk result (λ text.
        has_float (view value.now) ≡ false → text ≡ json_line (view value.now)) }
{
    let string = value.to_string(alloc)?;
    let mut text = Text::from_bytes(alloc, string.as_bytes())?;
    text.push(b"\n")?;
    Ok(text)
}
