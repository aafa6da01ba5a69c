//! The cards of declarer's side, and what is left of a plan after a card.
ghost use Rattle.std.specs.Prelude.{◌≡◌, ℕ, true, false, Some, Contains};
ghost use Rattle.card_sets.specs.SetWords.{has_card};
ghost use Rattle.trick_rules.specs.Positions.{IsState, to_play};
ghost use Rattle.trick_rules.specs.Play.{is_declarers, is_over, legal_in};
ghost use Rattle.strategy_games.specs.Plans.{Plan, Replies, Hear, cards_of};
ghost use Rattle.strategy_tree.specs.PlanMeaning.{plan_of, replies_of};
ghost use Rattle.strategy_check.specs.Following.{CanFollow};
ghost use Rattle.am_match.specs.PlayOuts.{IsByPlan, keeping_card as keeping, plan_after, reply_to as reply_in};

use card_sets::{Card, CardSet};
use dd_solver::Solver;
use strategy_tree::{Plan, Reply};
use trick_rules::{Position, play};

// The first legal card after which double dummy makes, or if there is none the first legal card.
fn keeping_card(solver: &mut Solver, position: &Position, left: CardSet) -> Option<Card>
    requires { IsState (record { position = position.now; left = left }) }
    ensures { result ≡ keeping (record { position = position.now; left = left }) }
{
    let legal = position.legal_in(left);
    let mut cards = legal;
    while let Some(card) = cards.pop_first() {
        if solver.makes(&play(position, card), left.without(card)) {
            return Some(card);
        }
    }
    legal.first()
}

// That card where play isn't over, so that there is one.
fn keep_result(solver: &mut Solver, position: &Position, left: CardSet) -> Card
    requires state { IsState (record { position = position.now; left = left }) }
    requires going_on { is_over position.now ≡ false }
    ensures { keeping (record { position = position.now; left = left }) ≡ Some result }
{
    let Some(card) = keeping_card(solver, position, left) else {
        unreachable!()
    };
    card
}

/// The card of declarer's side by a plan, where play isn't over.
pub fn card_by_plan(solver: &mut Solver, plan: &Plan, position: &Position, left: CardSet) -> Card
    requires follow { CanFollow (plan_of plan.now)
        (record { position = position.now; left = left }) }
    requires going_on { is_over position.now ≡ false }
    ensures by_plan { IsByPlan (plan_of plan.now) (record { position = position.now; left = left })
        result }
    ensures legal { is_declarers (to_play position.now) ≡ true
        → has_card (legal_in (record { position = position.now; left = left })) result ≡ true }
{
    match plan {
        Plan::Play(card, _) => *card,
        Plan::Stop => keep_result(solver, position, left),
        Plan::Hear(_) => keep_result(solver, position, left),
    }
}

/// What is left of a plan after a card. One that hears cards has a reply to it.
pub fn rest_after(plan: &Plan, card: Card) -> &Plan
    requires { (replies : Replies ℕ) → plan_of plan.now ≡ Hear replies
        → Contains (cards_of replies) card }
    ensures { plan_of result.now ≡ plan_after (plan_of plan.now) card }
{
    match plan {
        Plan::Stop => plan,
        Plan::Play(_, rest) => rest,
        Plan::Hear(replies) => reply_to(replies, card),
    }
}

// The plan of the reply to a card.
fn reply_to(replies: &[Reply], card: Card) -> &Plan
    requires { Contains (cards_of (replies_of replies.now)) card }
    ensures { plan_of result.now ≡ reply_in (replies_of replies.now) card }
{
    for reply in replies {
        if reply.card == card {
            return &reply.plan;
        }
    }
    unreachable!()
}
