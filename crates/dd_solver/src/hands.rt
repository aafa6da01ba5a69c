//! The four hands as one seat sees them.
ghost use Rattle.std.specs.Prelude.{◌≡◌, ◌≤◌, ◌∷◌, [], length, IfSome};
ghost use Rattle.trick_rules.specs.Play.{of_suit};

use card_sets::{Card, CardSet, Suit};
use sure_tricks::SeenHands;

/// The cards of all four.
pub(crate) fn all_of(hands: &SeenHands) -> CardSet {
    let ours = hands.own.either(hands.partner);
    ours.either(hands.next).either(hands.last)
}

/// The most cards of a suit that another hand has.
pub(crate) fn most_of_others(hands: &SeenHands, suit: Suit) -> u8
    ensures next { length (of_suit suit hands.now.next) ≤ result }
    ensures partner { length (of_suit suit hands.now.partner) ≤ result }
    ensures last { length (of_suit suit hands.now.last) ≤ result }
{
    let next = hands.next.of_suit(suit).count();
    let partner = hands.partner.of_suit(suit).count();
    let last = hands.last.of_suit(suit).count();
    next.max(partner).max(last)
}

/// The card, if there is only one.
pub(crate) fn only_of(cards: CardSet) -> Option<Card>
    ensures { IfSome result (λ card. cards ≡ card ∷ []) }
{
    let mut others = cards;
    let card = others.pop_first()?;
    if others.is_empty() { Some(card) } else { None }
}

/// Whether there are two cards or more.
pub(crate) fn has_two(cards: CardSet) -> bool {
    let mut rest = cards;
    rest.pop_first().is_some() && !rest.is_empty()
}
