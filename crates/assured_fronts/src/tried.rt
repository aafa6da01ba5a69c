//! The cards that a search for what is assured tries.
ghost use Rattle.std.specs.Prelude.{◌≡◌, ◌↔◌, ℕ, true, false, [], IfSome, IfNone};
ghost use Rattle.card_sets.specs.SetWords.{has_card};
ghost use Rattle.trick_rules.specs.Positions.{to_play};
ghost use Rattle.trick_rules.specs.Play.{is_declarers};
ghost use Rattle.trick_rules.specs.Nodes.{choices as choices_of};
ghost use Rattle.equal_cards.specs.Equals.{IsLowest};
ghost use Rattle.alphamu_core.specs.Kept.{AreEnough, IsTaken};

use alphamu_core::{cards_to_try, take_highest};
use card_sets::{Card, CardSet};
use cut_rules::{CutRules, Stop};
use trick_rules::Node;

/// The choices that are enough to try: of equal cards of declarer's side the lowest, and each card
/// of a defender.
pub fn cards_of(node: &Node) -> CardSet
    ensures enough { AreEnough node.now result }
    ensures ours { is_declarers (to_play node.now.position) ≡ true
        → (card : ℕ) → (has_card result card ≡ true) ↔ IsLowest node.now card }
    ensures theirs { is_declarers (to_play node.now.position) ≡ false
        → result ≡ choices_of node.now }
{
    if node.is_ours() {
        cards_to_try(node, CutRules::all(Stop::Never))
    } else {
        cards_to_try(node, CutRules::none())
    }
}

/// Takes out the card that is tried next: of declarer's side the highest, and of a defender the
/// lowest.
pub fn next_card(node: &Node, cards: &mut CardSet) -> Option<Card>
    ensures taken { IfSome result (λ card. IsTaken cards.old card cards.new) }
    ensures none { IfNone result (cards.old ≡ []) }
{
    if node.is_ours() {
        take_highest(cards)
    } else {
        cards.pop_first()
    }
}
