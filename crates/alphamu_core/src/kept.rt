// The cards that a search tries at a node.
ghost use Rattle.std.specs.Prelude.{◌≡◌, ◌↔◌, [], ℕ, true, IfSome, MatchOption};
ghost use Rattle.card_sets.specs.SetWords.{has_card, IsCardSet, IsLast};
ghost use Rattle.trick_rules.specs.Nodes.{choices as choices_of};
ghost use Rattle.equal_cards.specs.Equals.{IsLowest};
ghost use Rattle.cut_rules.specs.Rules.{no_cuts};
ghost use Rattle.alphamu_core.specs.Kept.{AreEnough, IsTaken};

use card_sets::{Card, CardSet};
use cut_rules::CutRules;
use equal_cards::one_of_equals;
use search_race::Runner;
use trick_rules::Node;

/// The choices that are enough to try: if there are cuts, of equal cards the lowest.
pub fn cards_to_try(node: &Node, rules: CutRules) -> CardSet
    ensures enough { AreEnough node.now result }
    ensures lowest { rules.bound ≡ true
        → (card : ℕ) → (has_card result card ≡ true) ↔ IsLowest node.now card }
    ensures each { rules ≡ no_cuts → result ≡ choices_of node.now }
{
    if rules.bound {
        node.choices().both(one_of_equals(node))
    } else {
        node.choices()
    }
}

/// Takes the highest card out, in card order.
pub fn take_highest(cards: &mut CardSet) -> Option<Card>
    ensures taken { MatchOption result ((cards.old ≡ []) × (cards.new ≡ []))
        (λ card. IsTaken cards.old card cards.new) }
    ensures highest { IfSome result (λ card. IsLast card cards.old) }
{
    let highest = cards.last()?;
    *cards = cards.without(highest);
    Some(highest)
}

/// The cards from the place on at which a runner begins in them.
///
/// No clause: the order of the cards changes no front.
pub(crate) fn going_first(runner: &Runner, cards: CardSet) -> CardSet {
    let mut first = cards;
    for _ in 0..runner.begins_at(usize::from(cards.count())) {
        first.pop_first();
    }
    first
}

// The first of the cards that go first, or if none of them is left the first of all.
fn next_in_turn(cards: CardSet, first: CardSet) -> Option<Card>
    ensures a_set { IsCardSet cards }
    ensures held { MatchOption result (cards ≡ []) (λ card. has_card cards card ≡ true) }
{
    let lowest = cards.first();
    match cards.both(first).first() {
        Some(card) => Some(card),
        None => lowest,
    }
}

/// Takes a card out: the first of those that go first, or once they are gone the first of the rest.
pub(crate) fn take_in_turn(cards: &mut CardSet, first: CardSet) -> Option<Card>
    ensures taken { MatchOption result ((cards.old ≡ []) × (cards.new ≡ []))
        (λ card. IsTaken cards.old card cards.new) }
{
    let card = next_in_turn(*cards, first)?;
    *cards = cards.without(card);
    Some(card)
}
