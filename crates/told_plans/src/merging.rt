//! Two plans in one.
ghost use Rattle.std.specs.Prelude.{◌≡◌, ◌≤◌, ◌+◌, ◌||◌, ℕ, true, Some, max, is_some, IfOk, MatchOption, ⊤};
ghost use Rattle.std.specs.Option.{option_map};
ghost use Rattle.strategy_games.specs.Plans.{Stop, Play, Hear};
ghost use Rattle.strategy_tree.specs.PlanMeaning.{plan_of, replies_of};
ghost use Rattle.strategy_tree.specs.PlanText.{levels_of, levels_below};
ghost use Rattle.told_plans.specs.Follows.{answer_to, Agree, IsBoth};
ghost use Rattle.told_plans.specs.BothSteps.{IsBothAfter};

use crate::answers::{answer, answered};
use card_sets::Card;
use std::alloc::{AllocError, Global};
use strategy_tree::{Plan, Reply};

/// The plan that has the replies of both: `None` exactly when the two answer the same cards
/// differently somewhere.
#[cycle(both)]
pub fn both(alloc: Global, plan: &Plan, other: &Plan) -> Result<Option<Plan>, AllocError>
    ensures value { IfOk result (λ found. MatchOption found
        (Agree (plan_of plan.now) (plan_of other.now) → ⊥)
        (λ both. IsBoth (plan_of plan.now) (plan_of other.now) (plan_of both))) }
    ensures levels { IfOk result (λ found. MatchOption found ⊤
        (λ both. levels_of (plan_of both)
        ≤ max (levels_of (plan_of plan.now)) (levels_of (plan_of other.now)))) }
{
    match plan {
        Plan::Stop => Ok(both_stop(other)),
        Plan::Play(card, rest) => both_play(alloc, *card, rest, other),
        Plan::Hear(replies) => both_hear(alloc, replies, other),
    }
}

// The same, if the first plan stops.
fn both_stop(other: &Plan) -> Option<Plan>
    ensures value { MatchOption result (Agree Stop (plan_of other.now) → ⊥)
        (λ both. IsBoth Stop (plan_of other.now) (plan_of both)) }
    ensures levels { MatchOption result ⊤ (λ both. levels_of (plan_of both) ≤ 1) }
{
    match other {
        Plan::Stop => Some(Plan::Stop),
        Plan::Play(_, _) => None,
        Plan::Hear(_) => None,
    }
}

// The same, if the first plan plays a card.
#[cycle(both)]
fn both_play(
    alloc: Global,
    card: Card,
    rest: &Plan,
    other: &Plan,
) -> Result<Option<Plan>, AllocError>
    ensures value { IfOk result (λ found. MatchOption found
        (Agree (Play card (plan_of rest.now)) (plan_of other.now) → ⊥)
        (λ both. IsBoth (Play card (plan_of rest.now)) (plan_of other.now) (plan_of both))) }
    ensures levels { IfOk result (λ found. MatchOption found ⊤
        (λ both. levels_of (plan_of both)
        ≤ max (1 + levels_of (plan_of rest.now)) (levels_of (plan_of other.now)))) }
{
    match other {
        Plan::Stop => Ok(None),
        Plan::Play(other_card, other_rest) => {
            if card != *other_card {
                return Ok(None);
            }
            let Some(all) = both(alloc, rest, other_rest)? else {
                return Ok(None);
            };
            Ok(Some(Plan::Play(card, Box::new(alloc, all)?)))
        }
        Plan::Hear(_) => Ok(None),
    }
}

// The same, if the first plan hears a defender's card.
#[cycle(both)]
fn both_hear(alloc: Global, replies: &[Reply], other: &Plan) -> Result<Option<Plan>, AllocError>
    ensures value { IfOk result (λ found. MatchOption found
        (Agree (Hear (replies_of replies.now)) (plan_of other.now) → ⊥)
        (λ both. IsBoth (Hear (replies_of replies.now)) (plan_of other.now) (plan_of both))) }
    ensures levels { IfOk result (λ found. MatchOption found ⊤
        (λ both. levels_of (plan_of both)
        ≤ max (1 + levels_below (replies_of replies.now)) (levels_of (plan_of other.now)))) }
{
    match other {
        Plan::Stop => Ok(None),
        Plan::Play(_, _) => Ok(None),
        Plan::Hear(others) => {
            let Some(all) = both_replies(alloc, replies, others)? else {
                return Ok(None);
            };
            Ok(Some(Plan::Hear(all)))
        }
    }
}

// The replies of both, in card order.
#[cycle(both)]
fn both_replies(
    alloc: Global,
    replies: &[Reply],
    others: &[Reply],
) -> Result<Option<Vec<Reply>>, AllocError>
    ensures value { IfOk result (λ found. MatchOption found
        (Agree (Hear (replies_of replies.now)) (Hear (replies_of others.now)) → ⊥)
        (λ all. IsBoth (Hear (replies_of replies.now)) (Hear (replies_of others.now))
        (Hear (replies_of all.items)))) }
    ensures levels { IfOk result (λ found. MatchOption found ⊤
        (λ all. levels_below (replies_of all.items)
        ≤ max (levels_below (replies_of replies.now)) (levels_below (replies_of others.now)))) }
{
    let mut all = Vec::new(alloc);
    let mut cards = answered(replies).either(answered(others));
    'cards: while let Some(card) = cards.pop_first() {
        let Some(plan) = both_answers(alloc, replies, others, card)? else {
            return Ok(None);
        };
        all.push(Reply { card, plan })?;
    }
    Ok(Some(all))
}

// The same of the answers to one card, which one of the two has at least.
#[cycle(both)]
fn both_answers(
    alloc: Global,
    replies: &[Reply],
    others: &[Reply],
    card: Card,
) -> Result<Option<Plan>, AllocError>
    requires { is_some (answer_to (replies_of replies.now) card)
        || is_some (answer_to (replies_of others.now) card) ≡ true }
    ensures value { IfOk result (λ found. MatchOption found
        (Agree (Hear (replies_of replies.now)) (Hear (replies_of others.now)) → ⊥)
        (λ both. IsBothAfter (answer_to (replies_of replies.now) card)
        (answer_to (replies_of others.now) card) (Some (plan_of both)))) }
    ensures levels { IfOk result (λ found. MatchOption found ⊤
        (λ both. levels_of (plan_of both)
        ≤ max (levels_below (replies_of replies.now)) (levels_below (replies_of others.now)))) }
{
    let Some(plan) = answer(replies, card) else {
        return copy_answer(alloc, others, card);
    };
    let Some(other) = answer(others, card) else {
        return Ok(Some(plan.copy(alloc)?));
    };
    both(alloc, plan, other)
}

// A copy of the plan that answers a card, if one does.
fn copy_answer(alloc: Global, replies: &[Reply], card: Card) -> Result<Option<Plan>, AllocError>
    ensures { IfOk result
        (λ found. option_map plan_of found ≡ answer_to (replies_of replies.now) card) }
{
    match answer(replies, card) {
        None => Ok(None),
        Some(plan) => Ok(Some(plan.copy(alloc)?)),
    }
}
