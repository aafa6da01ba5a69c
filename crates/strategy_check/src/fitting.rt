//! The first node of a plan that doesn't fit.
ghost use Rattle.std.specs.Prelude.{◌≡◌, ◌+◌, ◌<◌, ◌^◌, ◌==◌};
ghost use Rattle.trick_rules.specs.Nodes.{choices};
ghost use Rattle.strategy_games.specs.Plans.{cards_of};
ghost use Rattle.strategy_games.specs.Misfits.{node_count, node_counts, same_cards, belongs as belongs_at, first_misfit, first_misfit_each};
ghost use Rattle.strategy_tree.specs.Bridge.{bridge};
ghost use Rattle.strategy_tree.specs.PlanMeaning.{plan_of, replies_of};
ghost use Rattle.strategy_check.specs.Counting.{counted_nodes};

use crate::inline_node::InlineNode;
use card_sets::CardSet;
use strategy_tree::{Plan, Reply};

/// The number of a plan's last node, with `before` nodes before the plan, or of its first node that
/// doesn't fit.
#[cycle(fitting)]
pub fn count_fitting(plan: &Plan, node: &InlineNode, moves: u8, before: u32) -> Result<u32, u32>
    requires { before + node_count (plan_of plan.now) < 2 ^ 32 }
    ensures { result ≡ counted_nodes before (node_count (plan_of plan.now))
        (first_misfit bridge ◌==◌ (plan_of plan.now) node.now moves) }
{
    let number = before + 1;
    if !belongs(plan, node, moves) {
        return Err(number);
    }
    match plan {
        Plan::Stop => Ok(number),
        Plan::Play(card, rest) => count_fitting(rest, &node.child(*card), moves - 1, number),
        Plan::Hear(replies) => count_fitting_replies(replies, node, moves, number),
    }
}

// The same of the plans that answer a defender's cards.
#[cycle(fitting)]
fn count_fitting_replies(
    replies: &[Reply],
    node: &InlineNode,
    moves: u8,
    before: u32,
) -> Result<u32, u32>
    requires cards { cards_of (replies_of replies.now) ≡ choices node.now }
    requires room { before + node_counts (replies_of replies.now) < 2 ^ 32 }
    ensures { result ≡ counted_nodes before (node_counts (replies_of replies.now))
        (first_misfit_each bridge ◌==◌ (replies_of replies.now) node.now moves) }
{
    let mut last = before;
    for reply in replies {
        last = count_fitting(&reply.plan, &node.child(reply.card), moves, last)?;
    }
    Ok(last)
}

// Whether the first node of a plan fits.
fn belongs(plan: &Plan, node: &InlineNode, moves: u8) -> bool
    ensures { result ≡ belongs_at bridge ◌==◌ (plan_of plan.now) node.now moves }
{
    match plan {
        Plan::Stop => node.stops(moves),
        Plan::Play(card, _) => { !node.stops(moves) && node.is_ours() && node.choices().has(*card) }
        Plan::Hear(replies) => {
            !node.stops(moves) && !node.is_ours() && answer_each(replies, node.choices())
        }
    }
}

// Whether there is one reply for each of the cards, in card order.
fn answer_each(replies: &[Reply], cards: CardSet) -> bool
    ensures { result ≡ same_cards ◌==◌ (cards_of (replies_of replies.now)) cards }
{
    let mut rest = cards;
    for reply in replies {
        let Some(card) = rest.pop_first() else {
            return false;
        };
        if reply.card != card {
            return false;
        }
    }
    rest.is_empty()
}
