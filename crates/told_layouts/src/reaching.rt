//! Whether a layout can reach a step.
ghost use Rattle.std.specs.Prelude.{◌≡◌, true};
ghost use Rattle.strategy_tree.specs.PlanMeaning.{plan_of, replies_of};
ghost use Rattle.strategy_check.specs.Following.{CanFollow, CanFollowEach};
ghost use Rattle.told_layouts.specs.Looking.{somewhere, somewhere_below};

use card_sets::CardSet;
use strategy_tree::{Plan, Reply};
use trick_rules::{Position, play};

/// Whether there is a place of the step after one card of each set, if Left holds these cards.
#[cycle(reaching)]
pub fn reaches(plan: &Plan, position: &Position, left: CardSet, sets: &[CardSet]) -> bool
    requires { CanFollow (plan_of plan.now) (record { position = position.now; left = left }) }
    ensures { result ≡ somewhere (λ rest place. true) sets.now (plan_of plan.now)
        (record { position = position.now; left = left }) }
{
    let Some((set, later)) = sets.split_first() else {
        return true;
    };
    match plan {
        Plan::Stop => false,
        Plan::Play(card, rest) => {
            if !set.has(*card) {
                return false;
            }
            reaches(rest, &play(position, *card), left.without(*card), later)
        }
        Plan::Hear(replies) => reaches_below(replies, position, left, *set, later),
    }
}

// The same below a defender's cards, the next of which is in this set.
#[cycle(reaching)]
fn reaches_below(
    replies: &[Reply],
    position: &Position,
    left: CardSet,
    set: CardSet,
    later: &[CardSet],
) -> bool
    requires { CanFollowEach (replies_of replies.now)
        (record { position = position.now; left = left }) }
    ensures { result ≡ somewhere_below (λ rest place. true) set later.now
        (replies_of replies.now) (record { position = position.now; left = left }) }
{
    let mut found = false;
    let legal = position.legal_in(left);
    for reply in replies {
        let card = reply.card;
        if set.has(card) && legal.has(card) {
            let after = play(position, card);
            let one = reaches(&reply.plan, &after, left.without(card), later);
            found |= one;
        }
    }
    found
}
