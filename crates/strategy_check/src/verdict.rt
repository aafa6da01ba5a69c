//! The verdict on a plan.
ghost use Rattle.std.specs.Prelude.{◌≡◌, ◌<◌, ◌^◌, length};
ghost use Rattle.strategy_games.specs.Misfits.{node_count};
ghost use Rattle.strategy_tree.specs.PlanMeaning.{plan_of};
ghost use Rattle.strategy_check.specs.Verdicts.{IsVerdict};

use crate::fitting::count_fitting;
use crate::inline_node::InlineNode;
use crate::open_results::{DoubleDummy, PlainMinimax};
use crate::winning::wins_by;
use strategy_tree::Plan;
use trick_rules::Node;
use win_vectors::WinVector;

/// What a plan is found to be.
#[derive(Clone, Copy, Debug, PartialEq, Eq)]
pub enum Verdict {
    /// It is a strategy, and wins exactly the vector.
    Good,
    /// It is no strategy. The number is that of the first plan node that doesn't fit, counted from
    /// 1, each node before those below it.
    NotAStrategy(u32),
    /// It is a strategy that wins another vector: the first layout at which the two differ, counted
    /// from 1, and whether the plan wins that layout.
    OtherVector(u16, bool),
}

/// Plays a plan against every defence in every layout of a node, with `moves` moves of declarer's
/// side, and compares what it wins with a vector. If the plan stops at an open result, plain
/// minimax decides.
///
/// The vector is as wide as the node, and the plan has fewer than 2^32 nodes. It takes no memory.
pub fn check(node: &Node, moves: u8, plan: &Plan, vector: &WinVector) -> Verdict
    requires same_width { length vector.now ≡ length node.now.lefts }
    requires countable { node_count (plan_of plan.now) < 2 ^ 32 }
    ensures { IsVerdict node.now moves (plan_of plan.now) vector.now result }
{
    check_by(&mut PlainMinimax, node, moves, plan, vector)
}

/// The same with another solver for the open results. One that remembers should be used for all
/// plans.
pub fn check_by<D: DoubleDummy>(
    solver: &mut D,
    node: &Node,
    moves: u8,
    plan: &Plan,
    vector: &WinVector,
) -> Verdict
    requires same_width { length vector.now ≡ length node.now.lefts }
    requires countable { node_count (plan_of plan.now) < 2 ^ 32 }
    ensures { IsVerdict node.now moves (plan_of plan.now) vector.now result }
{
    if let Err(number) = count_fitting(plan, &InlineNode::of(node), moves, 0) {
        return Verdict::NotAStrategy(number);
    }
    for place in 0..node.width() {
        let bit = wins_by(solver, plan, node.position(), node.left(place));
        if bit != vector.get(place) {
            return Verdict::OtherVector(place + 1, bit);
        }
    }
    Verdict::Good
}
