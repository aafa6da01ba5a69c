//! Numbers and cards by lot.

use card_sets::{Card, CardSet};

/// Numbers that follow one another without an order that shows.
#[derive(Drop)]
pub struct Draws {
    state: u64,
}

impl Draws {
    pub fn new(seed: u64) -> Draws {
        Draws { state: seed }
    }

    /// A number below `bound`, which isn't 0.
    pub fn next(&mut self, bound: u64) -> u64 {
        self.state = self
            .state
            .wrapping_mul(6_364_136_223_846_793_005)
            .wrapping_add(1_442_695_040_888_963_407);
        (self.state >> 33) % bound.max(1)
    }

    /// This many cards that are not used yet; they are added to `used`.
    pub fn hand(&mut self, size: u8, used: &mut CardSet) -> CardSet {
        let mut hand = CardSet::empty();
        for _ in 0..10_000 {
            if hand.count() >= size {
                break;
            }
            let card = Card::from_number((self.next(52) % 52) as u8);
            if !used.has(card) {
                *used = used.with(card);
                hand = hand.with(card);
            }
        }
        hand
    }
}
