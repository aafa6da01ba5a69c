//! A plan as an array of nodes.
ghost use Rattle.std.specs.Prelude.{◌≡◌, ◌++◌, ◌∷◌, List, suc, length, IfOk};
ghost use Rattle.strategy_tree.specs.PlanMeaning.{plan_of, replies_of};
ghost use Rattle.flat_plans.specs.declared.node.PlanNode.{PlanNode};
ghost use Rattle.flat_plans.specs.Arrays.{Shows, ShowsAt, ShowEachAt};

use crate::node::PlanNode;
use std::alloc::{AllocError, Global};
use strategy_tree::{Plan, Reply};

/// The card of the first node.
const NO_CARD: u32 = 52;

/// The nodes of a plan. The first one is for what has been played already, and its replies are what
/// the plan begins with.
pub fn plan_nodes(alloc: Global, plan: &Plan) -> Result<Vec<PlanNode>, AllocError>
    ensures { IfOk result (λ nodes. Shows nodes.items (plan_of plan.now)) }
{
    let mut later = Vec::new(alloc);
    let first = node_of(alloc, NO_CARD, plan, &mut later)?;
    let mut nodes = Vec::new(alloc);
    nodes.push(first)?;
    nodes.extend_from_slice(&later)?;
    Ok(nodes)
}

// The node of a card after which the plan goes on. All nodes below it are added to those behind the
// array's first node.
#[cycle(add)]
fn node_of(
    alloc: Global,
    card: u32,
    plan: &Plan,
    later: &mut Vec<PlanNode>,
) -> Result<PlanNode, AllocError>
    ensures card { IfOk result (λ node. node.card ≡ card) }
    ensures shown { IfOk result (λ node. (first : PlanNode) → ShowsAt (first ∷ later.new.items)
        (plan_of plan.now) node.first_reply node.replies) }
    ensures added { IfOk result (λ _. (added : List PlanNode)
        × (later.new.items ≡ later.old.items ++ added)) }
{
    match plan {
        Plan::Stop => Ok(PlanNode {
            first_reply: 0,
            replies: 0,
            card,
        }),
        Plan::Play(next, rest) => {
            let node = node_of(alloc, u32::from(next.number()), rest, later)?;
            let first_reply = later.len() + 1;
            later.push(node)?;
            Ok(PlanNode {
                first_reply,
                replies: 1,
                card,
            })
        }
        Plan::Hear(replies) => {
            let first_reply = add_replies(alloc, replies, later)?;
            Ok(PlanNode {
                first_reply,
                replies: replies.len(),
                card,
            })
        }
    }
}

// Adds the nodes of the replies to a defender, after all nodes below them, and gives the place of
// the first one.
#[cycle(add)]
fn add_replies(
    alloc: Global,
    replies: &[Reply],
    later: &mut Vec<PlanNode>,
) -> Result<usize, AllocError>
    ensures shown { IfOk result (λ place. (first : PlanNode) → ShowEachAt (first ∷ later.new.items)
        (replies_of replies.now) place) }
    ensures added { IfOk result (λ _. (added : List PlanNode)
        × (later.new.items ≡ later.old.items ++ added)) }
{
    let mut nodes = Vec::new(alloc);
    for reply in replies {
        let node = node_of(alloc, u32::from(reply.card.number()), &reply.plan, later)?;
        nodes.push(node)?;
    }
    let place = later.len() + 1;
    later.extend_from_slice(&nodes)?;
    Ok(place)
}
