//! One term of a condition.
ghost use Rattle.std.specs.Prelude.{◌≡◌};
ghost use Rattle.hand_conditions.specs.Conditions.{measured, is_met_by};

use crate::counted::{is_balanced, points, shape, suit_length};
use crate::span::Span;
use card_sets::{CardSet, Suit};

/// What is counted in a hand.
#[derive(Clone, Copy, Debug, PartialEq, Eq)]
pub enum Measure {
    /// High-card points: 4, 3, 2 and 1 for each ace, king, queen and jack.
    Points,
    /// The cards of a suit.
    Length(Suit),
}

impl Measure {
    /// How many of these a hand has.
    pub fn of(self, hand: CardSet) -> u8
        ensures { result ≡ measured self hand }
    {
        match self {
            Measure::Points => points(hand),
            Measure::Length(suit) => suit_length(suit, hand),
        }
    }
}

/// One term of a condition.
#[derive(Clone, Copy, Debug)]
pub enum Term {
    /// As many as this.
    Count(Measure, Span),
    /// The suits have 4, 3, 3 and 3 cards, or 4, 4, 3 and 2, or 5, 3, 3 and 2, in any order.
    Balanced,
    /// Each of these cards is in the hand.
    Holds(CardSet),
    /// None of these cards is in the hand.
    Lacks(CardSet),
}

impl Term {
    /// Whether a hand meets the term.
    pub fn is_met_by(self, hand: CardSet) -> bool
        ensures { result ≡ is_met_by hand self }
    {
        match self {
            Term::Count(measure, span) => span.has(measure.of(hand)),
            Term::Balanced => is_balanced(&shape(hand)),
            Term::Holds(cards) => cards.is_subset(hand),
            Term::Lacks(cards) => cards.is_disjoint(hand),
        }
    }
}
