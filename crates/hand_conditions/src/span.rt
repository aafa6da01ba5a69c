//! How many, from a least number to a greatest.
ghost use Rattle.std.specs.Prelude.{◌≡◌, ◌<◌, ◌==◌, length, position, IfSome, option_map};
ghost use Rattle.hand_conditions.specs.Conditions.{is_within};
ghost use Rattle.hand_conditions.specs.Reading.{cut_at, count_read, span_between, span_read};

use crate::fault::TermFault;
use byte_text::read_number;

/// The numbers from `least` to `most`, both included.
#[derive(Clone, Copy, Debug, PartialEq, Eq)]
pub struct Span {
    pub least: u8,
    pub most: u8,
}

/// The greatest number that a term may name, and the greatest of a term like `5+`.
const MOST_NAMED: u8 = 99;

impl Span {
    /// Whether a number lies in the span.
    pub fn has(self, number: u8) -> bool
        ensures { result ≡ is_within self number }
    {
        self.least <= number && number <= self.most
    }
}

// Where the first such byte of a text stands.
fn place_of(text: &[u8], mark: u8) -> Option<usize>
    ensures value { result ≡ position (λ byte. byte == mark) text.now }
    ensures within { IfSome result (λ place. place < length text.now) }
{
    text.iter().position(|byte| *byte == mark)
}

// What stands before the first such byte of a text, and what follows it.
pub(crate) fn cut_at(text: &[u8], mark: u8) -> Option<(&[u8], &[u8])>
    ensures value { option_map (λ cut. (cut.0.now, cut.1.now)) result ≡ cut_at mark text.now }
    ensures shorter { IfSome result (λ cut. length cut.1.now < length text.now) }
{
    let place = place_of(text, mark)?;
    Some((&text[..place], &text[place + 1..]))
}

// The number that digits write: 0 to 99, without leading zeros.
fn read_count(digits: &[u8]) -> Option<u8>
    ensures { result ≡ count_read digits.now }
{
    let number = read_number(digits, 0, u32::from(MOST_NAMED))?;
    Some(number as u8)
}

// The span between two numbers, if both are told.
fn span_between(least: Option<u8>, most: Option<u8>) -> Result<Span, TermFault>
    ensures { result ≡ span_between least most }
{
    let (Some(least), Some(most)) = (least, most) else {
        return Err(TermFault::NotUnderstood);
    };
    if least <= most {
        Ok(Span { least, most })
    } else {
        Err(TermFault::UpsideDown)
    }
}

/// The span that a word tells: `N`, `N-M` or `N+`, of numbers from 0 to 99.
#[tactic(auto, unfolding(crate::specs::Reading::span_read))]
pub(crate) fn read_span(word: &[u8]) -> Result<Span, TermFault>
    ensures { result ≡ span_read word.now }
{
    if let Some((least, most)) = cut_at(word, b'-') {
        return span_between(read_count(least), read_count(most));
    }
    match cut_at(word, b'+') {
        Some((least, [])) => span_between(read_count(least), Some(MOST_NAMED)),
        Some(_) => Err(TermFault::NotUnderstood),
        None => span_between(read_count(word), read_count(word)),
    }
}
