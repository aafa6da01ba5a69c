//! Defenders that play by one rule.
ghost use Rattle.std.specs.Prelude.{◌≡◌, ◌≢◌, ◌≤◌, ℕ, List, [], ◌∷◌, ◌++◌, Option, Some, true, IfOk, IfErr, slice_get};
ghost use Rattle.card_sets.specs.SetWords.{has_card};

use crate::defender::Defender;
use card_sets::{Card, CardSet};
use std::alloc::AllocError;
use std::marker::Model;
use trick_rules::{CardLine, Position, legal};

/// Plays the first legal card in card order, and keeps a record of at most 52 cards. It is seen as
/// its record.
#[derive(Debug, Drop)]
pub struct LowCard {
    heard: CardLine,
}

/// Plays the last legal card in card order, and keeps a record of at most 52 cards. It is seen as
/// its record.
#[derive(Debug, Drop)]
pub struct HighCard {
    heard: CardLine,
}

impl Model for LowCard {
    ghost Value = { List ℕ };

    ghost view = { λ low. low.heard };
}

impl Model for HighCard {
    ghost Value = { List ℕ };

    ghost view = { λ high. high.heard };
}

impl LowCard {
    /// A defender that was told no card yet. It takes no memory.
    pub fn new() -> LowCard
        ensures { result ≡ [] }
    {
        LowCard {
            heard: CardLine::new(),
        }
    }
}

impl HighCard {
    /// A defender that was told no card yet. It takes no memory.
    pub fn new() -> HighCard
        ensures { result ≡ [] }
    {
        HighCard {
            heard: CardLine::new(),
        }
    }
}

impl Defender for LowCard {
    ghost style = { λ _. 1 };

    ghost heard = { λ low. Some low };

    fn choose(&mut self, position: &Position, hand: CardSet, _layout: u16) -> Card {
        let Some(first) = legal(position, hand).first() else {
            unreachable!()
        };
        first
    }

    fn saw(&mut self, card: Card) -> Result<(), AllocError> {
        record(&mut self.heard, card)
    }

    fn heard_at(&self, place: usize) -> Option<Card> {
        card_at(&self.heard, place)
    }
}

impl Defender for HighCard {
    ghost style = { λ _. 2 };

    ghost heard = { λ high. Some high };

    fn choose(&mut self, position: &Position, hand: CardSet, _layout: u16) -> Card {
        last_of(legal(position, hand))
    }

    fn saw(&mut self, card: Card) -> Result<(), AllocError> {
        record(&mut self.heard, card)
    }

    fn heard_at(&self, place: usize) -> Option<Card> {
        card_at(&self.heard, place)
    }
}

// The last card in card order of a set that isn't empty.
fn last_of(cards: CardSet) -> Card
    requires { cards ≢ [] }
    ensures held { has_card cards result ≡ true }
    ensures last { (other : ℕ) → has_card cards other ≡ true → other ≤ result }
{
    let mut rest = cards;
    let Some(first) = rest.pop_first() else {
        unreachable!()
    };
    let mut last = first;
    while let Some(card) = rest.pop_first() {
        last = card;
    }
    last
}

// Puts a card at the end of a record, which is full at the 52 cards of a pack.
fn record(heard: &mut CardLine, card: Card) -> Result<(), AllocError>
    ensures recorded { IfOk result (λ _. heard.new ≡ heard.old ++ card ∷ []) }
    ensures refused { IfErr result (λ _. heard.new ≡ heard.old) }
{
    if heard.len() == 52 {
        return Err(AllocError);
    }
    heard.push(card);
    Ok(())
}

// The card at a place of a record, counted from 0.
fn card_at(heard: &CardLine, place: usize) -> Option<Card>
    ensures { result ≡ slice_get heard.now place }
{
    if place < heard.len() {
        Some(heard.get(place))
    } else {
        None
    }
}
