//! The groups of a defender's cards whose replies agree.
ghost use Rattle.std.specs.Prelude.{◌≡◌, ◌≤◌, ℕ, map, All, IfOk, OnOk};
ghost use Rattle.strategy_tree.specs.PlanMeaning.{plan_of, replies_of};
ghost use Rattle.strategy_tree.specs.PlanText.{levels_of, levels_below};
ghost use Rattle.told_plans.specs.Told.{HasJoined, AreGroups};
ghost use Rattle.told_plans.specs.ToldMeaning.{group_of};

use crate::answers::{answer, answered};
use crate::merging::both;
use card_sets::{Card, CardSet};
use std::alloc::{AllocError, Global};
use strategy_tree::{Plan, Reply};

/// Cards whose replies agree, and the plan that has all these replies.
#[derive(Debug, Drop)]
pub struct Group {
    pub cards: CardSet,
    pub plan: Plan,
}

/// The groups of the cards that are replied to: in card order, each joins the first group that its
/// reply agrees with.
pub fn grouped(alloc: Global, replies: &[Reply]) -> Result<Vec<Group>, AllocError>
    ensures value { IfOk result
        (λ groups. AreGroups (replies_of replies.now) (map group_of groups.items)) }
    ensures levels { IfOk result (λ groups. All
        (λ group. levels_of (plan_of group.plan) ≤ levels_below (replies_of replies.now))
        groups.items) }
{
    let mut groups = Vec::new(alloc);
    let mut cards = answered(replies);
    'cards: while let Some(card) = cards.pop_first() {
        if let Some(plan) = answer(replies, card) {
            join(alloc, &mut groups, card, plan)?;
        }
    }
    Ok(groups)
}

// Puts a card with its reply into the first group that agrees with it, or else into a new one.
fn join(alloc: Global, groups: &mut Vec<Group>, card: Card, plan: &Plan) -> Result<(), AllocError>
    ensures joined { OnOk result (HasJoined card (plan_of plan.now)
        (map group_of groups.old.items) (map group_of groups.new.items)) }
    ensures levels { (most : ℕ) → levels_of (plan_of plan.now) ≤ most
        → All (λ group. levels_of (plan_of group.plan) ≤ most) groups.old.items
        → OnOk result (All (λ group. levels_of (plan_of group.plan) ≤ most) groups.new.items) }
{
    for place in 0..groups.len() {
        if let Some(all) = both(alloc, &groups[place].plan, plan)? {
            let cards = groups[place].cards.with(card);
            groups[place] = Group { cards, plan: all };
            return Ok(());
        }
    }
    let cards = CardSet::empty().with(card);
    let plan = plan.copy(alloc)?;
    groups.push(Group { cards, plan })?;
    Ok(())
}
