//! A strategy played out against a defence that beats it.
ghost use Rattle.std.specs.Prelude.{◌≡◌, ◌==◌, false};
ghost use Rattle.trick_rules.specs.Play.{is_over};
ghost use Rattle.strategy_games.specs.Plans.{wins};
ghost use Rattle.strategy_tree.specs.Bridge.{bridge};
ghost use Rattle.strategy_tree.specs.PlanMeaning.{plan_of};
ghost use Rattle.strategy_check.specs.Following.{CanFollow};
ghost use Rattle.line_plays.specs.Defended.{IsNextCard, PlaysOut};

use crate::defending::beating_card;
use am_match::{PlayOut, card_by_plan, rest_after};
use card_sets::{Card, CardSet};
use dd_solver::Solver;
use strategy_tree::Plan;
use trick_rules::{CardLine, Position, play};

// The card that is played next: by the plan, or by a defender to beat it.
fn next_card(solver: &mut Solver, plan: &Plan, position: &Position, left: CardSet) -> Card
    requires follow { CanFollow (plan_of plan.now)
        (record { position = position.now; left = left }) }
    requires going_on { is_over position.now ≡ false }
    ensures { IsNextCard (plan_of plan.now) (record { position = position.now; left = left })
        result }
{
    if position.is_ours() {
        return card_by_plan(solver, plan, position, left);
    }
    let Some(card) = beating_card(solver, plan, position, left) else {
        unreachable!()
    };
    card
}

/// Plays a strategy where Left holds these cards, from this position to the end.
///
/// Declarer's side plays the cards of the plan, and after the plan has stopped the first legal card
/// that keeps what double dummy makes. Each defender sees all hands and knows the plan: he plays
/// the first legal card in card order after which the rest of the plan loses, or if there is none
/// his first legal card. So the contract is made exactly if the plan wins this layout. It takes no
/// memory, except what the solver remembers.
pub fn play_against_best_defence(
    solver: &mut Solver,
    plan: &Plan,
    position: &Position,
    left: CardSet,
) -> PlayOut
    requires { CanFollow (plan_of plan.now) (record { position = position.now; left = left }) }
    ensures cards { PlaysOut (plan_of plan.now)
        (record { position = position.now; left = left }) result.cards }
    ensures made { result.made ≡ wins bridge (plan_of plan.now)
        (record { position = position.now; left = left }) }
{
    let mut cards = CardLine::new();
    let mut rest = plan;
    let mut at = position.copy();
    let mut held = left;
    while !at.over() {
        let card = next_card(solver, rest, &at, held);
        rest = rest_after(rest, card);
        at = play(&at, card);
        held = held.without(card);
        cards.push(card);
    }
    PlayOut {
        cards,
        made: at.need == 0,
    }
}
