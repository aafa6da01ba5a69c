//! A word of bits as a set of cards.
ghost use Rattle.std.specs.Prelude.{◌≡◌, ◌&&◌, ◌==◌, ◌||◌};
ghost use Rattle.bit_lists.specs.Bits.{has_bit};
ghost use Rattle.card_sets.specs.SetWords.{has_card, cards_where, IsCardSet};
ghost use Rattle.bit_questions.specs.Numbers.{cards_at};

use card_sets::{Card, CardSet};

// Whether the bit of a card is set.
fn has_bit(bits: u64, card: Card) -> bool
    ensures { result ≡ has_bit bits card }
{
    bits >> card.number() & 1 == 1
}

// The set with a card, if its bit is set.
fn with_bit(cards: CardSet, bits: u64, card: Card) -> CardSet
    requires { IsCardSet cards }
    ensures { result
        ≡ cards_where (λ c. has_card cards c || ((c == card) && has_bit bits card)) }
{
    if has_bit(bits, card) {
        cards.with(card)
    } else {
        cards
    }
}

/// The cards whose bits are set.
pub fn cards_at(bits: u64) -> CardSet
    ensures { result ≡ cards_at bits }
{
    let mut cards = CardSet::empty();
    for number in 0..52u8 {
        cards = with_bit(cards, bits, Card::from_number(number));
    }
    cards
}
