//! The laws of the layouts at a step. Each function does nothing: its contract is the law.
ghost use Rattle.std.specs.Prelude.{◌≡◌, ◌↔◌, ℕ, true, List, []};
ghost use Rattle.trick_rules.specs.Positions.{State};
ghost use Rattle.strategy_games.specs.Plans.{Plan, wins};
ghost use Rattle.strategy_tree.specs.Bridge.{bridge};
ghost use Rattle.told_layouts.specs.Places.{CanReach, IsWonFrom};
ghost use Rattle.told_layouts.specs.Losing.{LosesWhatItGivesUp, StepLayoutsAreBehind};
ghost use Rattle.told_layouts.specs.Losing.{ReachedCanReach};

/// Every layout reaches the first step of a plan, and is won from there exactly if the plan wins
/// it.
#[tactic(auto, using(crate::proofs::Placed::first_reached, crate::proofs::Placed::first_won))]
pub fn the_first_step_has_the_vector()
    ensures reached { (plan : Plan ℕ) (s : State) → CanReach [] plan s }
    ensures won { (plan : Plan ℕ) (s : State)
        → IsWonFrom [] plan s ↔ (wins bridge plan s ≡ true) }
{}

/// A strategy loses a layout that double dummy makes exactly if somewhere it plays a card that
/// gives the layout up. So what all cards of a line give up, among what sampling believes in, is
/// what sampling believes in less the vector.
#[tactic(auto, using(crate::proofs::GivenUp::loses_what_it_gives_up))]
pub fn a_strategy_loses_what_it_gives_up()
    ensures { LosesWhatItGivesUp }
{}

/// Of every step of a strategy, the layouts that are looked up are those behind it.
pub fn step_layouts_are_behind()
    ensures { StepLayoutsAreBehind }
{}

/// Of every step of a strategy, the layouts that are marked as reaching it are those that can.
#[tactic(auto, using(crate::proofs::Behind::reached_are_behind))]
pub fn reached_layouts_can_reach()
    ensures { ReachedCanReach }
{}
