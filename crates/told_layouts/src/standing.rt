//! What is so at the places of a step, in one layout.
ghost use Rattle.std.specs.Prelude.{◌≡◌, ◌&&◌, ◌||◌, not, false, true};
ghost use Rattle.strategy_tree.specs.PlanMeaning.{plan_of, replies_of};
ghost use Rattle.strategy_check.specs.Following.{CanFollow, CanFollowEach};
ghost use Rattle.told_layouts.specs.Looking.{somewhere, somewhere_below, loses, gives_up};

use card_sets::CardSet;
use dd_solver::Solver;
use fast_check::FastDoubleDummy;
use strategy_check::wins_by;
use strategy_tree::{Plan, Reply};
use trick_rules::{Position, play};

/// What is so at one or more of the places.
#[derive(Clone, Copy, Debug)]
pub struct Standing {
    /// There is a place.
    pub reached: bool,
    /// The rest of the plan loses.
    pub lost: bool,
    /// The card that is played there gives the layout up.
    pub given_up: bool,
}

impl Standing {
    // No place so far.
    fn nowhere() -> Standing
        ensures reached { result.reached ≡ false }
        ensures lost { result.lost ≡ false }
        ensures given_up { result.given_up ≡ false }
    {
        Standing {
            reached: false,
            lost: false,
            given_up: false,
        }
    }

    /// There is a place, and at none of them the rest of the plan loses.
    pub fn is_won(self) -> bool
        ensures { result ≡ (self.reached && not self.lost) }
    {
        self.reached && !self.lost
    }

    // The places of both.
    fn or(self, other: Standing) -> Standing
        ensures reached { result.reached ≡ (self.reached || other.reached) }
        ensures lost { result.lost ≡ (self.lost || other.lost) }
        ensures given_up { result.given_up ≡ (self.given_up || other.given_up) }
    {
        Standing {
            reached: self.reached || other.reached,
            lost: self.lost || other.lost,
            given_up: self.given_up || other.given_up,
        }
    }
}

/// What is so at the places of the step after one card of each set, if Left holds these cards.
#[cycle(standing)]
pub fn standing_at(
    solver: &mut Solver,
    plan: &Plan,
    position: &Position,
    left: CardSet,
    sets: &[CardSet],
) -> Standing
    requires { CanFollow (plan_of plan.now) (record { position = position.now; left = left }) }
    ensures reached { result.reached ≡ somewhere (λ rest place. true) sets.now (plan_of plan.now)
        (record { position = position.now; left = left }) }
    ensures lost { result.lost ≡ somewhere loses sets.now (plan_of plan.now)
        (record { position = position.now; left = left }) }
    ensures given_up { result.given_up ≡ somewhere gives_up sets.now (plan_of plan.now)
        (record { position = position.now; left = left }) }
{
    let Some((set, later)) = sets.split_first() else {
        return standing_here(solver, plan, position, left);
    };
    match plan {
        Plan::Stop => Standing::nowhere(),
        Plan::Play(card, rest) => {
            if !set.has(*card) {
                return Standing::nowhere();
            }
            standing_at(
                solver,
                rest,
                &play(position, *card),
                left.without(*card),
                later,
            )
        }
        Plan::Hear(replies) => standing_below(solver, replies, position, left, *set, later),
    }
}

// The same below a defender's cards, the next of which is in this set.
#[cycle(standing)]
fn standing_below(
    solver: &mut Solver,
    replies: &[Reply],
    position: &Position,
    left: CardSet,
    set: CardSet,
    later: &[CardSet],
) -> Standing
    requires { CanFollowEach (replies_of replies.now)
        (record { position = position.now; left = left }) }
    ensures reached { result.reached ≡ somewhere_below (λ rest place. true) set later.now
        (replies_of replies.now) (record { position = position.now; left = left }) }
    ensures lost { result.lost ≡ somewhere_below loses set later.now
        (replies_of replies.now) (record { position = position.now; left = left }) }
    ensures given_up { result.given_up ≡ somewhere_below gives_up set later.now
        (replies_of replies.now) (record { position = position.now; left = left }) }
{
    let mut all = Standing::nowhere();
    let legal = position.legal_in(left);
    for reply in replies {
        let card = reply.card;
        if set.has(card) && legal.has(card) {
            let after = play(position, card);
            let one = standing_at(solver, &reply.plan, &after, left.without(card), later);
            all = all.or(one);
        }
    }
    all
}

// The same at a place.
fn standing_here(solver: &mut Solver, plan: &Plan, position: &Position, left: CardSet) -> Standing
    requires { CanFollow (plan_of plan.now) (record { position = position.now; left = left }) }
    ensures reached { result.reached ≡ true }
    ensures lost { result.lost ≡ loses (plan_of plan.now)
        (record { position = position.now; left = left }) }
    ensures given_up { result.given_up ≡ gives_up (plan_of plan.now)
        (record { position = position.now; left = left }) }
{
    let lost = !wins_by(&mut FastDoubleDummy(solver), plan, position, left);
    let given_up = match plan {
        Plan::Stop => false,
        Plan::Play(card, _) => {
            solver.makes(position, left)
                && !solver.makes(&play(position, *card), left.without(*card))
        }
        Plan::Hear(_) => false,
    };
    Standing {
        reached: true,
        lost,
        given_up,
    }
}
