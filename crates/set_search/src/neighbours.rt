//! Cards that are left out for a neighbour, a card of their suit with no card in play between them.
ghost use Rattle.std.specs.Prelude.{◌≡◌, ◌<◌, ℕ, true, [], length, get_or, IsTrue, IfSome};
ghost use Rattle.trick_rules.specs.Positions.{to_play};
ghost use Rattle.trick_rules.specs.Play.{is_declarers};
ghost use Rattle.set_nodes.specs.Neighbours.{AreNeighbours};
ghost use Rattle.set_search.specs.LeftOut.{AreEnough, IsAnswered, IsAnsweredBy};

use crate::legal_sets::of_card;
use card_sets::{Card, CardSet};
use double_dummy::cards_in_play;
use trick_rules::Position;
use win_vectors::WinVector;

// The neighbour above a card, if there is one in play.
fn neighbour_above(position: &Position, card: Card) -> Option<Card>
    ensures { IfSome result (AreNeighbours position.now card) }
{
    let next = cards_in_play(position).after(card)?;
    if next.suit() == card.suit() {
        Some(next)
    } else {
        None
    }
}

// The neighbour below a card, if there is one in play.
fn neighbour_below(position: &Position, card: Card) -> Option<Card>
    ensures { IfSome result (λ low. AreNeighbours position.now low card) }
{
    let suit = cards_in_play(position).of_suit(card.suit());
    let low = suit.minus(CardSet::up_from(card)).last()?;
    match neighbour_above(position, low) {
        Some(high) if high == card => Some(low),
        _ => None,
    }
}

/// The legal cards of declarer's side, of neighbours the lowest.
pub(crate) fn own_cards(position: &Position) -> CardSet
    requires { is_declarers (to_play position.now) ≡ true }
    ensures { AreEnough position.now result }
{
    let legal = position.legal_in(CardSet::empty());
    let mut kept = legal;
    let mut rest = legal;
    while let Some(card) = rest.pop_first() {
        if let Some(high) = neighbour_above(position, card) {
            kept = kept.without(high);
        }
    }
    kept
}

// Whether a card isn't among those that are left, and is legal in each layout of a set.
fn is_answered(legal: &[WinVector; 52], set: WinVector, left: CardSet, card: Card) -> bool
    requires { (c : ℕ) → c < 52 → length (get_or legal.now c []) ≡ length set }
    ensures { IsTrue result → IsAnswered legal.now set left card }
{
    !left.has(card) && of_card(legal, card).dominates(set)
}

/// Whether a neighbour of a card isn't among those that are left, and is legal in each of the layouts
/// in which the card is. `legal` has the layouts in which each card is legal, by its number.
pub(crate) fn has_answered_neighbour(
    legal: &[WinVector; 52],
    position: &Position,
    left: CardSet,
    card: Card,
) -> bool
    requires { (c : ℕ) → c < 52
        → length (get_or legal.now c []) ≡ length (get_or legal.now card []) }
    ensures { IsTrue result
        → (other : ℕ) × IsAnsweredBy position.now legal.now left card other }
{
    let set = of_card(legal, card);
    if let Some(high) = neighbour_above(position, card) {
        if is_answered(legal, set, left, high) {
            return true;
        }
    }
    match neighbour_below(position, card) {
        Some(low) => is_answered(legal, set, left, low),
        None => false,
    }
}
