//! The strategy for a vector of the front.
ghost use Rattle.std.specs.Prelude.{IfOk, IfErr, MatchOption};
ghost use Rattle.strategy_tree.specs.PlanMeaning.{plan_of};
ghost use Rattle.bit_answers.specs.Answers.{HoldsAt};
ghost use Rattle.bit_answers.specs.Ready.{IsReady, IsSearchFault};
ghost use Rattle.bit_answers.specs.Strategies.{IsNoStrategy, IsPastFront};
ghost use Rattle.bit_answers.specs.Strategies.{IsStrategy, IsStrategyFor};

use crate::fault::BitFault;
use crate::searches::{front_over, new_table, only_worker};
use bit_questions::{Asked, Question, read};
use flat_plans::{PlanNode, plan_nodes};
use plan_finder::{Wanted, plan_for};
use shared_table::SharedStore;
use std::alloc::Global;
use strategy_tree::{Plan, RootFault};

// The plan that is chosen for the vector at a place of the front, if there is one. It is found over
// the table that the front was found with, by the same solver.
fn plan_at(alloc: Global, asked: &Asked, place: usize) -> Result<Option<Plan>, RootFault>
    requires { IsReady asked.now }
    ensures plan { IfOk result (λ found. MatchOption found
        (IsPastFront asked.now.node asked.now.moves place)
        (λ plan. IsStrategyFor asked.now.node asked.now.moves place (plan_of plan))) }
    ensures refused { IfErr result (IsSearchFault asked.now) }
{
    let _width = asked.node.width();
    let (table, mut pass) = new_table(alloc)?;
    let mut worker = only_worker(alloc);
    let front = front_over(alloc, asked, &table, &mut pass, &mut worker)?;
    let Some(vector) = front.as_slice().get(place) else {
        return Ok(None);
    };
    let wanted = Wanted {
        node: &asked.node,
        target: vector,
        moves: asked.moves,
        nodes: asked.nodes,
        cuts: true,
    };
    let mut store = SharedStore::new(&table, &mut pass);
    let found = plan_for(alloc, &mut store, &mut worker.solver, &wanted)?;
    Ok(Some(found.plan))
}

/// The nodes of the strategy that is chosen for the vector at a place of the front.
pub fn strategy(
    alloc: Global,
    question: &Question,
    lefts: &[u64],
    weights: &[u32],
    place: usize,
) -> Result<Vec<PlanNode>, BitFault>
    ensures nodes { IfOk result (λ nodes. HoldsAt question.now lefts.now
        (λ n. IsStrategy n question.now.moves place nodes.items)) }
    ensures refused { IfErr result (IsNoStrategy question.now lefts.now weights.now place) }
{
    let asked = read(alloc, question, lefts, weights)?;
    let Some(plan) = plan_at(alloc, &asked, place)? else {
        return Err(BitFault::NoVector);
    };
    Ok(plan_nodes(alloc, &plan)?)
}
