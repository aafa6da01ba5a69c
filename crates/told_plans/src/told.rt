//! A plan as it is told.
ghost use Rattle.std.specs.Prelude.{◌≡◌, ◌≤◌, ℕ, map, IfOk};
ghost use Rattle.trick_rules.specs.Nodes.{NodeValue};
ghost use Rattle.strategy_games.specs.Plans.{Fits};
ghost use Rattle.strategy_tree.specs.Bridge.{bridge};
ghost use Rattle.strategy_tree.specs.PlanMeaning.{plan_of};
ghost use Rattle.told_plans.specs.Told.{IsTold, AreTold};
ghost use Rattle.told_plans.specs.ToldMeaning.{told_of, branches_of, group_of};
ghost use Rattle.told_plans.specs.Cuts.{cut};

use crate::grouping::{Group, grouped};
use card_sets::{Card, CardSet};
use std::alloc::{AllocError, Global};
use strategy_tree::Plan;

/// A strategy of declarer's side as it is told.
#[derive(Debug, Drop)]
#[cycle(told_plan)]
pub enum ToldPlan {
    /// No moves are left, or the result is decided.
    Stop,
    /// Declarer or dummy plays the card.
    Play(Card, Box<ToldPlan>),
    /// A defender plays: one branch for each group of his cards whose replies agree.
    Hear(Vec<Branch>),
}

/// Cards of a defender, and what is told of all of them.
#[derive(Debug, Drop)]
#[cycle(told_plan)]
pub struct Branch {
    pub cards: CardSet,
    pub plan: ToldPlan,
}

impl ToldPlan {
    /// The told plan of a plan. Nothing is lost: wherever the plan is a strategy, the told plan cut
    /// down to what can be played there is the plan.
    pub fn of(alloc: Global, plan: &Plan) -> Result<ToldPlan, AllocError>
        ensures told { IfOk result (λ told. IsTold (told_of told) (plan_of plan.now)) }
        ensures lossless { IfOk result (λ told. (n : NodeValue) (moves : ℕ)
            → Fits bridge (plan_of plan.now) n moves
            → cut (told_of told) n ≡ plan_of plan.now) }
    {
        tell(alloc, plan)
    }
}

#[cycle(tell)]
fn tell(alloc: Global, plan: &Plan) -> Result<ToldPlan, AllocError>
    ensures { IfOk result (λ told. IsTold (told_of told) (plan_of plan.now)) }
{
    match plan {
        Plan::Stop => Ok(ToldPlan::Stop),
        Plan::Play(card, rest) => {
            let told = tell(alloc, rest)?;
            Ok(ToldPlan::Play(*card, Box::new(alloc, told)?))
        }
        Plan::Hear(replies) => {
            let groups = grouped(alloc, replies)?;
            Ok(ToldPlan::Hear(tell_each(alloc, &groups)?))
        }
    }
}

// One branch for each group.
#[cycle(tell)]
fn tell_each(alloc: Global, groups: &[Group]) -> Result<Vec<Branch>, AllocError>
    ensures { IfOk result
        (λ branches. AreTold (branches_of branches.items) (map group_of groups.now)) }
{
    let mut branches = Vec::new(alloc);
    for group in groups {
        let plan = tell(alloc, &group.plan)?;
        branches.push(Branch {
            cards: group.cards,
            plan,
        })?;
    }
    Ok(branches)
}
