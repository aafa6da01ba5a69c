//! A fact about a seat's cards.
ghost use Rattle.std.specs.Prelude.{◌≡◌};
ghost use Rattle.layout_facts.specs.Facts.{length_of as length_at, holds_in as is_so_in};

use card_sets::{Card, CardSet, Seat, Suit};
use trick_rules::Position;

/// What may be so of the cards that a seat holds now.
#[derive(Clone, Copy, Debug)]
pub enum Fact {
    /// The seat holds the card.
    Holds { seat: Seat, card: Card },
    /// The seat holds exactly this many cards of the suit.
    Exactly { seat: Seat, suit: Suit, count: u8 },
    /// The seat holds this many cards of the suit, or more.
    AtLeast { seat: Seat, suit: Suit, count: u8 },
}

// How many cards of a suit a seat holds if Left holds these cards.
fn length_of(position: &Position, left: CardSet, seat: Seat, suit: Suit) -> u8
    ensures { result ≡ length_at seat suit (record { position = position.now; left = left }) }
{
    position.hand(seat, left).of_suit(suit).count()
}

/// Whether a fact is so at a position if Left holds these cards.
pub fn holds_in(fact: &Fact, position: &Position, left: CardSet) -> bool
    ensures { result ≡ is_so_in fact.now (record { position = position.now; left = left }) }
{
    match fact {
        Fact::Holds { seat, card } => position.hand(*seat, left).has(*card),
        Fact::Exactly { seat, suit, count } => length_of(position, left, *seat, *suit) == *count,
        Fact::AtLeast { seat, suit, count } => *count <= length_of(position, left, *seat, *suit),
    }
}
