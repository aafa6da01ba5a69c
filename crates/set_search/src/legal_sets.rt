//! For each card, the layouts of a set in which it is legal.
ghost use Rattle.std.specs.Prelude.{◌≡◌, ◌<◌, ℕ, true, false, [], length, get_or, set};
ghost use Rattle.card_sets.specs.SetWords.{has_card};
ghost use Rattle.win_vectors.specs.Vectors.{meet_of};
ghost use Rattle.set_nodes.specs.SetNodes.{legal_at};

use card_sets::{Card, CardSet};
use set_nodes::left_at;
use trick_rules::Position;
use win_vectors::WinVector;

/// For each card, by its number, the layouts of a set in which it is legal.
pub(crate) fn legal_sets(
    layouts: &[CardSet],
    position: &Position,
    set: WinVector,
) -> [WinVector; 52]
    requires { length set ≡ length layouts.now }
    ensures { (card : ℕ) → card < 52
        → get_or result card [] ≡ meet_of set (legal_at layouts.now position.now card) }
{
    let mut legal = [WinVector::none(set.width()); 52];
    for place in 0..set.width() {
        if set.get(place) {
            let cards = position.legal_in(left_at(layouts, position, place));
            mark(&mut legal, cards, place);
        }
    }
    legal
}

/// The layouts in which a card is legal.
pub(crate) fn of_card(legal: &[WinVector; 52], card: Card) -> WinVector
    ensures a_card { card < 52 }
    ensures value { result ≡ get_or legal.now card [] }
{
    legal[usize::from(card.number())]
}

// Adds a layout to those of each of these cards.
fn mark(legal: &mut [WinVector; 52], cards: CardSet, place: u16)
    requires { (card : ℕ) → card < 52 → place < length (get_or legal.old card []) }
    ensures marked { (card : ℕ) → has_card cards card ≡ true
        → get_or legal.new card [] ≡ set (get_or legal.old card []) place true }
    ensures others { (card : ℕ) → has_card cards card ≡ false
        → get_or legal.new card [] ≡ get_or legal.old card [] }
{
    let mut rest = cards;
    while let Some(card) = rest.pop_first() {
        let number = usize::from(card.number());
        legal[number] = legal[number].set(place, true);
    }
}
