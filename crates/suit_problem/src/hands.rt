//! The cards of a suit that dummy and South hold.
use card_sets::CardSet;

/// The cards of a suit, as spades, that dummy and South hold.
#[derive(Clone, Copy, Debug)]
pub struct SuitHands {
    pub dummy: CardSet,
    pub south: CardSet,
}
