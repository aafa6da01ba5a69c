//! What a strategy wins in one layout.
ghost use Rattle.std.specs.Prelude.{◌≡◌};
ghost use Rattle.trick_rules.specs.Positions.{IsState};
ghost use Rattle.trick_rules.specs.Play.{makes as makes_in};
ghost use Rattle.strategy_games.specs.Plans.{wins as wins_in};
ghost use Rattle.strategy_tree.specs.Bridge.{bridge};
ghost use Rattle.strategy_tree.specs.PlanMeaning.{plan_of, replies_of};
ghost use Rattle.strategy_check.specs.Following.{CanFollow, CanFollowEach, win_each};

use crate::open_results::{DoubleDummy, PlainMinimax};
use card_sets::CardSet;
use strategy_tree::{Plan, Reply};
use trick_rules::{Position, play};

// Whether the contract is made by double dummy. No card is played if the result is decided.
fn makes<D: DoubleDummy>(solver: &mut D, position: &Position, left: CardSet) -> bool
    requires { IsState (record { position = position.now; left = left }) }
    ensures { result ≡ makes_in (record { position = position.now; left = left }) }
{
    match position.decided() {
        Some(made) => made,
        None => solver.makes(position, left),
    }
}

/// Whether a strategy makes the contract where Left holds these cards, whatever the defenders do.
/// If it stops at an open result, plain minimax decides.
pub fn wins(plan: &Plan, position: &Position, left: CardSet) -> bool
    requires { CanFollow (plan_of plan.now) (record { position = position.now; left = left }) }
    ensures { result ≡ wins_in bridge (plan_of plan.now)
        (record { position = position.now; left = left }) }
{
    wins_by(&mut PlainMinimax, plan, position, left)
}

/// The same with another solver for the open results. One that remembers should be used for all
/// questions.
#[cycle(winning)]
pub fn wins_by<D: DoubleDummy>(
    solver: &mut D,
    plan: &Plan,
    position: &Position,
    left: CardSet,
) -> bool
    requires { CanFollow (plan_of plan.now) (record { position = position.now; left = left }) }
    ensures { result ≡ wins_in bridge (plan_of plan.now)
        (record { position = position.now; left = left }) }
{
    match plan {
        Plan::Stop => makes(solver, position, left),
        Plan::Play(card, rest) => {
            wins_by(solver, rest, &play(position, *card), left.without(*card))
        }
        Plan::Hear(replies) => win_against_each(solver, replies, position, left),
    }
}

// Whether each reply to a card that the defender may play makes the contract.
#[cycle(winning)]
fn win_against_each<D: DoubleDummy>(
    solver: &mut D,
    replies: &[Reply],
    position: &Position,
    left: CardSet,
) -> bool
    requires { CanFollowEach (replies_of replies.now)
        (record { position = position.now; left = left }) }
    ensures { result ≡ win_each (replies_of replies.now)
        (record { position = position.now; left = left }) }
{
    let legal = position.legal_in(left);
    for reply in replies {
        let card = reply.card;
        if legal.has(card)
            && !wins_by(
                solver,
                &reply.plan,
                &play(position, card),
                left.without(card),
            )
        {
            return false;
        }
    }
    true
}
