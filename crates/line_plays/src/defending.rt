//! A defender's card that beats a strategy, if there is one.
ghost use Rattle.std.specs.Prelude.{◌≡◌, true, false, not};
ghost use Rattle.card_sets.specs.SetWords.{has_card};
ghost use Rattle.trick_rules.specs.Positions.{to_play};
ghost use Rattle.trick_rules.specs.Play.{is_declarers, legal_in, after};
ghost use Rattle.strategy_games.specs.Plans.{wins as wins_in};
ghost use Rattle.strategy_tree.specs.Bridge.{bridge};
ghost use Rattle.strategy_tree.specs.PlanMeaning.{plan_of};
ghost use Rattle.strategy_check.specs.Following.{CanFollow};
ghost use Rattle.am_match.specs.PlayOuts.{plan_after};
ghost use Rattle.line_plays.specs.Defended.{beating_card as beating};

use am_match::rest_after;
use card_sets::{Card, CardSet};
use dd_solver::Solver;
use fast_check::FastDoubleDummy;
use strategy_check::wins_by;
use strategy_tree::Plan;
use trick_rules::{Position, play};

// Whether the rest of a plan loses after a legal card of a defender.
fn loses_after(
    solver: &mut Solver,
    plan: &Plan,
    position: &Position,
    left: CardSet,
    card: Card,
) -> bool
    requires follow { CanFollow (plan_of plan.now)
        (record { position = position.now; left = left }) }
    requires theirs { is_declarers (to_play position.now) ≡ false }
    requires legal { has_card (legal_in (record { position = position.now; left = left })) card
        ≡ true }
    ensures { result ≡ not (wins_in bridge (plan_after (plan_of plan.now) card)
        (after (record { position = position.now; left = left }) card)) }
{
    let rest = rest_after(plan, card);
    let mut solver = FastDoubleDummy(solver);
    !wins_by(&mut solver, rest, &play(position, card), left.without(card))
}

/// The first legal card of a defender after which the rest of a plan loses, or if there is none the
/// first legal card.
pub fn beating_card(
    solver: &mut Solver,
    plan: &Plan,
    position: &Position,
    left: CardSet,
) -> Option<Card>
    requires follow { CanFollow (plan_of plan.now)
        (record { position = position.now; left = left }) }
    requires theirs { is_declarers (to_play position.now) ≡ false }
    ensures { result ≡ beating (plan_of plan.now)
        (record { position = position.now; left = left }) }
{
    let legal = position.legal_in(left);
    let mut cards = legal;
    while let Some(card) = cards.pop_first() {
        if loses_after(solver, plan, position, left, card) {
            return Some(card);
        }
    }
    legal.first()
}
