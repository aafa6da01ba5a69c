//! What is counted in a hand: its high-card points, and its cards of each suit.
ghost use Rattle.std.specs.Prelude.{◌≡◌, ◌<◌, length, filter};
ghost use Rattle.card_sets.specs.SetWords.{IsCardSet, cards_where};
ghost use Rattle.hand_conditions.specs.Conditions.{points, is_at, suit_length, shape};
ghost use Rattle.hand_conditions.specs.Conditions.{suits_of, is_balanced_shape};

use card_sets::{Card, CardSet, Suit};

// The cards at this place of each suit: the two has place 0, and the ace place 12.
fn at_place(place: u8) -> CardSet
    requires { place < 13 }
    ensures { result ≡ cards_where (is_at place) }
{
    CardSet::empty()
        .with(Card::from_number(place))
        .with(Card::from_number(place + 13))
        .with(Card::from_number(place + 26))
        .with(Card::from_number(place + 39))
}

// How many cards of a hand are at this place of their suits.
fn count_at(place: u8, hand: CardSet) -> u8
    requires place { place < 13 }
    requires a_set { IsCardSet hand }
    ensures { result ≡ length (filter (is_at place) hand) }
{
    hand.both(at_place(place)).count()
}

/// The high-card points of a hand: 4, 3, 2 and 1 for each ace, king, queen and jack.
pub fn points(hand: CardSet) -> u8
    ensures { result ≡ points hand }
{
    if hand.is_empty() {
        return 0;
    }
    4 * count_at(12, hand) + 3 * count_at(11, hand) + 2 * count_at(10, hand) + count_at(9, hand)
}

/// How many cards of a suit a hand has.
pub(crate) fn suit_length(suit: Suit, hand: CardSet) -> u8
    ensures { result ≡ suit_length suit hand }
{
    hand.of_suit(suit).count()
}

/// How many spades, hearts, diamonds and clubs a hand has.
pub fn shape(hand: CardSet) -> [u8; 4]
    ensures { result ≡ shape hand }
{
    [
        suit_length(Suit::Spades, hand),
        suit_length(Suit::Hearts, hand),
        suit_length(Suit::Diamonds, hand),
        suit_length(Suit::Clubs, hand),
    ]
}

// How many of the four suits have this many cards.
fn suits_of(count: u8, shape: &[u8]) -> usize
    ensures value { result ≡ suits_of count shape.now }
{
    shape.iter().filter(|cards| **cards == count).count()
}

/// Whether four suits of these lengths are 4333, 4432 or 5332 in some order.
pub(crate) fn is_balanced(shape: &[u8]) -> bool
    ensures { result ≡ is_balanced_shape shape.now }
{
    match (
        suits_of(5, shape),
        suits_of(4, shape),
        suits_of(3, shape),
        suits_of(2, shape),
    ) {
        (0, 1, 3, 0) | (0, 2, 1, 1) | (1, 0, 2, 1) => true,
        _ => false,
    }
}
