//! Cards in the order in which they were played.
ghost use Rattle.std.specs.Prelude.{◌≡◌, ◌<◌, ◌≤◌, ◌++◌, ◌∷◌, [], Some, length, slice_get};

use arrayvec::ArrayVec;
use card_sets::Card;
use std::marker::Model;

/// Cards in order, at most the 52 of a pack. It takes no memory beside its own.
#[derive(Debug, Drop)]
pub struct CardLine {
    cards: ArrayVec<Card, 52>,
}

impl Model for CardLine {
    ghost use Rattle.std.specs.Prelude.{ℕ, List, length, ◌≤◌};

    ghost Value = { List ℕ };

    ghost view = { λ line. line.cards.items };

    ghost invariant = { λ line. length line.cards.items ≤ 52 };
}

impl CardLine {
    /// A line with no card.
    pub fn new() -> CardLine
        ensures { result ≡ [] }
    {
        CardLine {
            cards: ArrayVec::new(),
        }
    }

    /// Puts a card at the end.
    pub fn push(&mut self, card: Card)
        requires { length self.old < 52 }
        ensures { self.new ≡ self.old ++ card ∷ [] }
    {
        self.cards.push(card);
    }

    /// How many cards there are: at most 52.
    pub fn len(&self) -> usize
        ensures value { result ≡ length self.now }
        ensures few { length self.now ≤ 52 }
    {
        self.cards.len()
    }

    /// The card at a place, which is counted from 0.
    pub fn get(&self, place: usize) -> Card
        requires { place < length self.now }
        ensures { slice_get self.now place ≡ Some result }
    {
        self.cards[place]
    }
}
