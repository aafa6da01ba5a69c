//! What the definitions come to. Each function does nothing: its contract is the law.
ghost use Rattle.std.specs.Prelude.{◌≡◌, ◌==◌, ℕ, List, []};
ghost use Rattle.trick_rules.specs.Positions.{State};
ghost use Rattle.strategy_games.specs.Plans.{Plan, wins};
ghost use Rattle.strategy_tree.specs.Bridge.{bridge};
ghost use Rattle.strategy_check.specs.Following.{CanFollow};
ghost use Rattle.am_match.specs.PlayOuts.{Follows, state_after};
ghost use Rattle.line_plays.specs.Defended.{PlaysOut};

/// A strategy that is played out against a defence that beats it makes exactly in the layouts that
/// it wins. So such a line of play shows that a layout is lost.
#[tactic(auto, using(crate::proofs::Shown::made_exactly_if_won))]
pub fn made_exactly_if_won()
    ensures { (plan : Plan ℕ) (s : State) (cards : List ℕ) → CanFollow plan s
        → PlaysOut plan s cards
        → ((state_after s cards).position.need == 0) ≡ wins bridge plan s }
{}

/// It is a play-out of the strategy against some defenders.
#[tactic(auto, using(crate::proofs::Shown::it_follows_the_plan))]
pub fn it_follows_the_plan()
    ensures { (plan : Plan ℕ) (s : State) (cards : List ℕ) → PlaysOut plan s cards
        → Follows plan s (λ number. []) cards }
{}
