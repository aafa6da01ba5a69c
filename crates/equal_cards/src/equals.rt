//! Of equal cards only the lowest is kept.
ghost use Rattle.std.specs.Prelude.{◌≡◌, ◌↔◌, ◌≤◌, ℕ, true, Some, IsTrue};
ghost use Rattle.card_sets.specs.SetWords.{has_card, cards_where};
ghost use Rattle.trick_rules.specs.Nodes.{IsNode, choices as choices_of, child_mask};
ghost use Rattle.double_dummy.specs.Equals.{in_play};
ghost use Rattle.equal_cards.specs.Equals.{AreEqualAt, IsLowest, ComeToTheSame};

use card_sets::{Card, CardSet};
use double_dummy::cards_in_play;
use trick_rules::Node;

// Whether two cards are legal in the same layouts.
fn masks_agree(node: &Node, card: Card, other: Card) -> bool
    ensures { IsTrue result ↔ (child_mask node.now card ≡ child_mask node.now other) }
{
    let position = node.position();
    for left in node.lefts() {
        let legal = position.legal_in(*left);
        if legal.has(card) != legal.has(other) {
            return false;
        }
    }
    true
}

// Whether two choices are legal in the same layouts. Those of declarer's side are legal in all.
fn same_layouts(node: &Node, card: Card, other: Card) -> bool
    requires choice { has_card (choices_of node.now) card ≡ true }
    requires other_choice { has_card (choices_of node.now) other ≡ true }
    ensures { IsTrue result ↔ (child_mask node.now card ≡ child_mask node.now other) }
{
    node.is_ours() || masks_agree(node, card, other)
}

// The higher card that a choice is equal to, if there is one.
fn next_equal(node: &Node, choices: CardSet, playing: CardSet, card: Card) -> Option<Card>
    requires node { IsNode node.now }
    requires choices { choices ≡ choices_of node.now }
    requires playing { playing ≡ cards_where (in_play node.now.position) }
    requires choice { has_card choices card ≡ true }
    ensures { (high : ℕ) → (result ≡ Some high) ↔ AreEqualAt node.now card high }
{
    let next = playing.after(card)?;
    if choices.has(next) && next.suit() == card.suit() && same_layouts(node, card, next) {
        Some(next)
    } else {
        None
    }
}

/// The choices of a node, of equal cards only the lowest. It takes no memory.
///
/// Each choice has a kept one that comes to the same and isn't above it in card order.
pub fn one_of_equals(node: &Node) -> CardSet
    ensures lowest { (card : ℕ) → (has_card result card ≡ true) ↔ IsLowest node.now card }
    ensures each { (card : ℕ) → has_card (choices_of node.now) card ≡ true
        → (kept : ℕ) × (has_card result kept ≡ true) × (kept ≤ card)
        × ComeToTheSame node.now kept card }
{
    let choices = node.choices();
    let playing = cards_in_play(node.position());
    let mut kept = choices;
    let mut rest = choices;
    while let Some(card) = rest.pop_first() {
        if let Some(next) = next_equal(node, choices, playing, card) {
            kept = kept.without(next);
        }
    }
    kept
}
