//! Why there is no ending of a suit.
use card_sets::Card;

/// Why there is no ending of a suit.
#[derive(Clone, Copy, Debug, PartialEq, Eq)]
pub enum SuitFault {
    /// A hand's text isn't the cards of a suit.
    NotCards,
    /// This card is told twice.
    Twice(Card),
    /// The hands have more cards than a suit, or with their entries more than thirteen.
    TooMany,
    /// The defenders would have more than eight cards of the suit, and more than 256 divisions.
    TooFew,
}
