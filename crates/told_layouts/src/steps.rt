//! The layouts behind a step.
ghost use Rattle.std.specs.Prelude.{◌≡◌, ℕ};
ghost use Rattle.strategy_games.specs.Plans.{Fits};
ghost use Rattle.strategy_tree.specs.Bridge.{bridge};
ghost use Rattle.strategy_tree.specs.PlanMeaning.{plan_of};
ghost use Rattle.trick_rules.specs.Nodes.{states};
ghost use Rattle.told_layouts.specs.Places.{CanReach};
ghost use Rattle.told_layouts.specs.Behind.{AreThose, AreBehind};
ghost use Rattle.told_layouts.specs.Looking.{step_layouts, reached};

use crate::reaching::reaches;
use crate::standing::standing_at;
use card_sets::CardSet;
use dd_solver::Solver;
use strategy_tree::Plan;
use trick_rules::Node;
use win_vectors::WinVector;

/// The layouts behind a step, each a bit a layout, in the order of the layouts.
#[derive(Clone, Copy, Debug)]
pub struct StepLayouts {
    /// Those that can reach the step and are won from each of its places.
    pub won: WinVector,
    /// Those that are lost from one of the places.
    pub lost: WinVector,
    /// Those that the card that is played at the step gives up: at one of the places double dummy
    /// makes before the card and not after it.
    pub given_up: WinVector,
}

/// The layouts behind the step of a strategy at a node that comes after one card of each of these
/// sets.
///
/// The solver remembers what it finds, so one should be used for all steps.
pub fn layouts_at(solver: &mut Solver, plan: &Plan, node: &Node, sets: &[CardSet]) -> StepLayouts
    requires { (moves : ℕ) × Fits bridge (plan_of plan.now) node.now moves }
    ensures value { result ≡ step_layouts (plan_of plan.now) node.now sets.now }
    ensures behind { AreBehind sets.now (plan_of plan.now) node.now result }
{
    let width = node.width();
    let mut won = WinVector::none(width);
    let mut lost = won;
    let mut given_up = won;
    for place in 0..width {
        let standing = standing_at(solver, plan, node.position(), node.left(place), sets);
        won = won.set(place, standing.is_won());
        lost = lost.set(place, standing.lost);
        given_up = given_up.set(place, standing.given_up);
    }
    StepLayouts {
        won,
        lost,
        given_up,
    }
}

/// The layouts that can reach the step of a strategy at a node that comes after one card of each of
/// these sets, a bit a layout, in the order of the layouts.
pub fn reached_at(plan: &Plan, node: &Node, sets: &[CardSet]) -> WinVector
    requires { (moves : ℕ) × Fits bridge (plan_of plan.now) node.now moves }
    ensures value { result ≡ reached (plan_of plan.now) node.now sets.now }
    ensures those { AreThose (λ s. CanReach sets.now (plan_of plan.now) s)
        (states node.now) result }
{
    let width = node.width();
    let mut reached = WinVector::none(width);
    for place in 0..width {
        let can_reach = reaches(plan, node.position(), node.left(place), sets);
        reached = reached.set(place, can_reach);
    }
    reached
}
