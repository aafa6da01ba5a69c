//! An answer, and the cards that count for it.
ghost use Rattle.std.specs.Prelude.{◌≡◌, ◌≢◌, ℕ, ◌<◌, ◌∷◌, [], ◌++◌, true, ◌||◌, IsTrue, List, length, slice_index};
ghost use Rattle.card_sets.specs.Cards.{suit_of};
ghost use Rattle.card_sets.specs.SetWords.{has_card, IsCardSet, IsSubset};
ghost use Rattle.trick_rules.specs.Positions.{IsSound};
ghost use Rattle.trick_rules.specs.Play.{winning_place, CanPlay};
ghost use Rattle.equivalent_positions.specs.Alike.{IsClosedUp, SettlesEnd};
ghost use Rattle.dd_solver.specs.Closed.{up_from as up_from_card};

use card_sets::{Card, CardSet};
use trick_rules::Position;

/// An answer of double dummy, and the cards that count for it.
#[derive(Clone, Copy, Debug)]
pub(crate) struct Answer {
    pub(crate) made: bool,
    pub(crate) counting: CardSet,
}

/// A card with all higher ones of its suit.
pub(crate) fn up_from(card: Card) -> CardSet
    ensures { result ≡ up_from_card card }
{
    CardSet::up_from(card)
}

/// The cards with one more and all higher ones of its suit.
pub(crate) fn with_up(cards: CardSet, card: Card) -> CardSet
    requires { IsClosedUp cards }
    ensures closed { IsClosedUp result }
    ensures within { IsSubset cards result }
    ensures a_set { IsCardSet result }
    ensures value { (c : ℕ) → c < 52
        → has_card result c ≡ (has_card cards c || has_card (up_from_card card) c) }
{
    if cards.has(card) {
        cards
    } else {
        cards.either(up_from(card))
    }
}

/// The cards of two sets.
pub(crate) fn joined(these: CardSet, those: CardSet) -> CardSet
    requires first { IsClosedUp these }
    requires second { IsClosedUp those }
    ensures closed { IsClosedUp result }
    ensures first_within { IsSubset these result }
    ensures second_within { IsSubset those result }
{
    if these.is_empty() {
        those
    } else if those.is_empty() {
        these
    } else {
        these.either(those)
    }
}

// Whether no other card of a trick is of the suit of the card at this place.
fn is_alone(cards: &[Card; 4], place: usize) -> bool
    requires { place < 4 }
    ensures { IsTrue result → (other : ℕ) → other < 4 → other ≢ place
        → suit_of (slice_index cards.now other) ≢ suit_of (slice_index cards.now place) }
{
    let suit = cards[place].suit();
    for (other, card) in cards.as_slice().iter().enumerate() {
        if other != place && card.suit() == suit {
            return false;
        }
    }
    true
}

// The cards of the trick that this card ends.
fn cards_with(position: &Position, card: Card) -> [Card; 4]
    requires { length position.now.trick.cards ≡ 3 }
    ensures { result ≡ position.now.trick.cards ++ card ∷ [] }
{
    let cards = position.trick.cards.as_slice();
    [cards[0], cards[1], cards[2], card]
}

/// The cards that count with the one that wins the trick that this card ends, which lies at this
/// place, unless it is the only one of its suit there.
pub(crate) fn with_winner(position: &Position, card: Card, place: usize, part: CardSet) -> CardSet
    requires sound { IsSound position.now }
    requires held { CanPlay position.now card }
    requires fourth { length position.now.trick.cards ≡ 3 }
    requires within { place < 4 }
    requires wins { place
        ≡ winning_place position.now.trump (position.now.trick.cards ++ card ∷ []) }
    requires closed { IsClosedUp part }
    ensures closed { IsClosedUp result }
    ensures within { IsSubset part result }
    ensures settles { (left : List ℕ)
        → SettlesEnd result (record { position = position.now; left = left }) card }
{
    let cards = cards_with(position, card);
    if is_alone(&cards, place) {
        part
    } else {
        with_up(part, cards[place])
    }
}
