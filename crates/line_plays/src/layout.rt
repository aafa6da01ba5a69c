//! A strategy played out in a layout of a node.
ghost use Rattle.std.specs.Prelude.{◌≡◌, ◌<◌, ℕ, Some, length, slice_get};
ghost use Rattle.trick_rules.specs.Positions.{State};
ghost use Rattle.trick_rules.specs.Nodes.{states};
ghost use Rattle.strategy_games.specs.Plans.{Fits, wins};
ghost use Rattle.strategy_tree.specs.Bridge.{bridge};
ghost use Rattle.strategy_tree.specs.PlanMeaning.{plan_of};
ghost use Rattle.line_plays.specs.Defended.{PlaysOut};

use crate::playing::play_against_best_defence;
use am_match::PlayOut;
use dd_solver::Solver;
use strategy_tree::Plan;
use trick_rules::Node;

/// Plays a strategy at a node in the layout of a place, which is counted from 0, as
/// [play_against_best_defence] does.
pub fn play_in_layout(solver: &mut Solver, plan: &Plan, node: &Node, place: u16) -> PlayOut
    requires a_layout { place < length node.now.lefts }
    requires fits { (moves : ℕ) × Fits bridge (plan_of plan.now) node.now moves }
    ensures cards { (s : State) → slice_get (states node.now) place ≡ Some s
        → PlaysOut (plan_of plan.now) s result.cards }
    ensures made { (s : State) → slice_get (states node.now) place ≡ Some s
        → result.made ≡ wins bridge (plan_of plan.now) s }
{
    play_against_best_defence(solver, plan, node.position(), node.left(place))
}
