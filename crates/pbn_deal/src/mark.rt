//! What a token of the Play section says.
ghost use Rattle.std.specs.Prelude.{◌≡◌};
ghost use Rattle.std.specs.List.{list_all};
ghost use Rattle.pbn_deal.specs.Marks.{is_suffix, is_numbered, is_note, card_of_token, mark_of};

use byte_text::are_digits;
use card_letters::read_card;
use card_sets::Card;

/// What a token of the Play section says.
#[derive(Clone, Copy, Debug, PartialEq, Eq)]
pub enum Mark {
    /// `*`: the section ends.
    End,
    /// `+`: a card not yet played if a card follows, and otherwise the end of the section.
    Plus,
    /// `-`: a card not yet played.
    Gap,
    /// A note, which is skipped.
    Note,
    /// A card.
    Card(Card),
    /// None of these.
    Other,
}

// Whether all bytes are `!` or `?`.
fn is_suffix(bytes: &[u8]) -> bool
    ensures { result ≡ list_all is_suffix bytes.now }
{
    bytes.iter().all(|byte| *byte == b'!' || *byte == b'?')
}

// Whether a token is `=n=` with a number n.
fn is_numbered(text: &[u8]) -> bool
    ensures { result ≡ is_numbered text.now }
{
    match text {
        [b'=', digits @ .., b'='] => !digits.is_empty() && are_digits(digits),
        _ => false,
    }
}

// Whether a token is skipped.
fn is_note(text: &[u8]) -> bool
    ensures { result ≡ is_note text.now }
{
    matches!(text, [b'$', ..]) || is_numbered(text) || is_suffix(text)
}

// The card of a token: a suit letter, a rank letter, and a run of `!` and `?`.
fn card_of(text: &[u8]) -> Option<Card>
    ensures { result ≡ card_of_token text.now }
{
    match text {
        [suit, rank, suffix @ ..] if is_suffix(suffix) => read_card(*suit, *rank),
        _ => None,
    }
}

/// What a token of the Play section says, by its bytes in the file.
#[tactic(auto, unfolding(crate::specs::Marks::mark_of))]
pub fn read_mark(text: &[u8]) -> Mark
    ensures { result ≡ mark_of text.now }
{
    match text {
        b"*" => Mark::End,
        b"+" => Mark::Plus,
        b"-" => Mark::Gap,
        _ if is_note(text) => Mark::Note,
        _ => match card_of(text) {
            Some(card) => Mark::Card(card),
            None => Mark::Other,
        },
    }
}
