//! The shape of the hands (DDS: suit lengths), which each card played changes by one.
ghost use Rattle.std.specs.Prelude.{◌≡◌, ◌+◌, ◌*◌, ◌<◌, ◌≤◌, IsTrue, [], ◌∷◌};
ghost use Rattle.dd_solver.specs.Shapes.{lengths_of, place_of, IsShapeOf};

use card_sets::{Card, CardSet, Seat, Suit};
use trick_rules::Position;

/// How many cards of each suit declarer, dummy, both defenders together and Left have: sixteen bits
/// for each of the four, and four of these for a suit.
#[derive(Clone, Copy, Debug)]
pub(crate) struct Shape {
    pub(crate) lengths: u64,
}

// How many cards of each suit are there.
fn lengths_in(cards: CardSet) -> u64
    ensures value { result ≡ lengths_of cards }
    ensures small { result < 65536 }
{
    let spades = u64::from(cards.of_suit(Suit::Spades).count());
    let hearts = u64::from(cards.of_suit(Suit::Hearts).count());
    let diamonds = u64::from(cards.of_suit(Suit::Diamonds).count());
    let clubs = u64::from(cards.of_suit(Suit::Clubs).count());
    ((spades * 16 + hearts) * 16 + diamonds) * 16 + clubs
}

// The same of a single card.
fn lengths_with(card: Card) -> u64
    ensures value { result ≡ lengths_of (card ∷ []) }
    ensures small { result ≤ 4096 }
{
    match card.suit() {
        Suit::Spades => 4096,
        Suit::Hearts => 256,
        Suit::Diamonds => 16,
        Suit::Clubs => 1,
    }
}

// What one of a seat's cards counts for in a shape.
fn seat_place(seat: Seat) -> u64
    ensures value { result ≡ place_of seat }
    ensures small { result ≤ 281474976710656 }
{
    match seat {
        Seat::Declarer => 0x1_0000_0000_0000,
        Seat::Left => 0x1_0001,
        Seat::Dummy => 0x1_0000_0000,
        Seat::Right => 0x1_0000,
    }
}

impl Shape {
    /// The shape of the hands at a position.
    pub(crate) fn of(position: &Position, left: CardSet) -> Shape
        ensures { IsShapeOf result (record { position = position.now; left = left }) }
    {
        let ours = lengths_in(position.declarer) * 0x1_0000 + lengths_in(position.dummy);
        let theirs = lengths_in(position.unseen) * 0x1_0000 + lengths_in(left);
        Shape {
            lengths: ours * 0x1_0000_0000 + theirs,
        }
    }

    /// The shape without a card of this seat.
    pub(crate) fn without(self, seat: Seat, card: Card) -> Shape
        requires { lengths_of (card ∷ []) * place_of seat ≤ self.lengths }
        ensures { result.lengths + lengths_of (card ∷ []) * place_of seat ≡ self.lengths }
    {
        Shape {
            lengths: self.lengths - lengths_with(card) * seat_place(seat),
        }
    }

    /// Whether the two are the same.
    pub(crate) fn equals(&self, other: &Shape) -> bool
        ensures { IsTrue result → self.now ≡ other.now }
    {
        self.lengths == other.lengths
    }
}
