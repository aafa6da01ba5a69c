//! The chosen plan in memory.
ghost use Rattle.std.specs.Prelude.{◌≡◌, ◌≤◌, ℕ, true, IfOk, IfSome, IsErrOf};
ghost use Rattle.trick_rules.specs.Nodes.{most_moves};
ghost use Rattle.strategy_games.specs.Choosing.{IsChosenPlan};
ghost use Rattle.strategy_tree.specs.Bridge.{bridge};
ghost use Rattle.strategy_tree.specs.PlanMeaning.{plan_of};
ghost use Rattle.alphamu_core.specs.Costs.{IsWithin};
ghost use Rattle.plan_finder.specs.Targets.{IsOfFront};
ghost use Rattle.plan_finder.specs.SpentPlans.{IsPlanSpentAt};

use crate::wanted::Wanted;
use crate::writer::PlanWriter;
use alphamu_core::Entered;
use dd_solver::Solver;
use front_table::FrontStore;
use std::alloc::Global;
use strategy_tree::{Plan, RootFault, read_plan};

/// A plan, and the most nodes that a search for it entered, if there was a search.
#[derive(Drop)]
pub struct FoundPlan {
    pub plan: Plan,
    pub most: Option<Entered>,
}

/// The plan that is printed for a vector of a front, the target.
///
/// At declarer's side it takes the first card after which some vector of the front dominates the
/// target. At a defender it goes on, after each card, with the first vector of the front there that
/// dominates the target's part. Each child that it has to judge is searched with a budget of its
/// own.
///
/// `Spent` names a card of the node after which the tree is larger than the budget. It doesn't come
/// after the plan's first card.
pub fn plan_for<S: FrontStore>(
    alloc: Global,
    store: &mut S,
    solver: &mut Solver,
    wanted: &Wanted<'_>,
) -> Result<FoundPlan, RootFault>
    requires ours { bridge.is_ours wanted.now.node.now ≡ true }
    requires a_move { 1 ≤ wanted.now.moves }
    requires few_moves { wanted.now.moves ≤ most_moves }
    requires target { IsOfFront wanted.now.node.now wanted.now.moves wanted.now.target.now }
    ensures plan { IfOk result (λ found. IsChosenPlan bridge (plan_of found.plan)
        wanted.now.node.now wanted.now.moves wanted.now.target.now) }
    ensures within { IfOk result (λ found. IfSome found.most (IsWithin wanted.now.nodes)) }
    ensures spent { (card : ℕ) → IsErrOf result (RootFault.Spent card)
        → IsPlanSpentAt wanted.now.node.now wanted.now.moves wanted.now.target.now
        wanted.now.nodes card }
    ensures grown { S.grown store.old store.new }
{
    let _position = wanted.node.position();
    let mut out = PlanWriter::new(alloc);
    let most = match out.push_plan(store, solver, wanted) {
        Ok(most) => most,
        Err(fault) => return Err(fault),
    };
    match read_plan(alloc, out.bytes(), 0) {
        Ok((plan, _)) => Ok(FoundPlan { plan, most }),
        Err(_) => Err(RootFault::Memory),
    }
}
