//! The order in which cards are tried.
ghost use Rattle.std.specs.Prelude.{◌≡◌, true, [], MatchOption};
ghost use Rattle.card_sets.specs.SetWords.{has_card};
ghost use Rattle.alphamu_core.specs.Kept.{IsTaken};

use card_sets::{Card, CardSet};
use win_vectors::WinVector;

/// For each card, in how many layouts it is legal.
///
/// No clause: no law depends on the order in which cards are tried.
pub(crate) fn counts_of(legal: &[WinVector; 52]) -> [u16; 52] {
    let mut counts = [0u16; 52];
    for place in 0..52usize {
        counts[place] = legal[place].count();
    }
    counts
}

// The card with the highest count, of several the highest card.
fn widest(cards: CardSet, counts: &[u16; 52], highest: Card) -> Card
    requires { has_card cards highest ≡ true }
    ensures { has_card cards result ≡ true }
{
    let mut best = highest;
    let mut rest = cards;
    while let Some(card) = rest.pop_first() {
        let more = counts[usize::from(card.number())] >= counts[usize::from(best.number())];
        if cards.has(card) && more {
            best = card;
        }
    }
    best
}

/// Takes out a card that goes first, if one is among these, or else the one with the highest count,
/// of several the highest card.
pub(crate) fn take_widest(cards: &mut CardSet, counts: &[u16; 52], first: CardSet) -> Option<Card>
    ensures taken { MatchOption result ((cards.old ≡ []) × (cards.new ≡ []))
        (λ card. IsTaken cards.old card cards.new) }
{
    let highest = cards.last()?;
    let best = widest(*cards, counts, highest);
    let card = going_first(*cards, first, best);
    *cards = cards.without(card);
    Some(card)
}

/// Takes out a card that goes first, if one is among these, or else the highest.
pub(crate) fn take_highest(cards: &mut CardSet, first: CardSet) -> Option<Card>
    ensures taken { MatchOption result ((cards.old ≡ []) × (cards.new ≡ []))
        (λ card. IsTaken cards.old card cards.new) }
{
    let highest = cards.last()?;
    let card = going_first(*cards, first, highest);
    *cards = cards.without(card);
    Some(card)
}

// The first of the cards that go first, if one of them is among these, or else the other card.
fn going_first(cards: CardSet, first: CardSet, other: Card) -> Card
    requires { has_card cards other ≡ true }
    ensures { has_card cards result ≡ true }
{
    match cards.both(first).first() {
        Some(card) if cards.has(card) => card,
        _ => other,
    }
}
