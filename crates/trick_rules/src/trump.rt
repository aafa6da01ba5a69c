//! Trumps.
use card_sets::Suit;

/// The trump suit, or none.
#[derive(Clone, Copy, Debug, PartialEq, Eq, Hash)]
pub enum Trump {
    Suit(Suit),
    NoTrump,
}
