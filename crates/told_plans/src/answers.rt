//! The replies to a defender, by card.
ghost use Rattle.std.specs.Prelude.{◌≡◌, ℕ, Some, None, is_some, MatchOption};
ghost use Rattle.card_sets.specs.SetWords.{has_card};
ghost use Rattle.strategy_tree.specs.PlanMeaning.{plan_of, replies_of};
ghost use Rattle.told_plans.specs.Follows.{answer_to};
ghost use Rattle.told_plans.specs.Told.{answered};

use card_sets::{Card, CardSet};
use strategy_tree::{Plan, Reply};

/// The plan that answers a card, if one does.
pub fn answer(replies: &[Reply], card: Card) -> Option<&Plan>
    ensures { MatchOption result (answer_to (replies_of replies.now) card ≡ None)
        (λ plan. answer_to (replies_of replies.now) card ≡ Some (plan_of plan.now)) }
{
    for reply in replies {
        if reply.card == card {
            return Some(&reply.plan);
        }
    }
    None
}

/// The cards that are replied to.
pub fn answered(replies: &[Reply]) -> CardSet
    ensures value { result ≡ answered (replies_of replies.now) }
    ensures each { (card : ℕ)
        → has_card result card ≡ is_some (answer_to (replies_of replies.now) card) }
{
    let mut cards = CardSet::empty();
    for reply in replies {
        let _number = reply.card.number();
        cards = cards.with(reply.card);
    }
    cards
}
