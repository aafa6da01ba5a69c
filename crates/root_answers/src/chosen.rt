//! The plan for a vector of a front.
ghost use Rattle.std.specs.Prelude.{IfOk};
ghost use Rattle.strategy_games.specs.Choosing.{IsChosenPlan};
ghost use Rattle.strategy_tree.specs.Bridge.{bridge};
ghost use Rattle.strategy_tree.specs.PlanMeaning.{plan_of};
ghost use Rattle.plan_finder.specs.Targets.{IsOfFront};
ghost use Rattle.root_workers.specs.Questions.{IsQuestion, NamesSpent};
ghost use Rattle.shared_table.specs.Passes.{IsPassOf};

use crate::wanted::plan_wanted;
use dd_solver::Solver;
use front_table::NoStore;
use plan_finder::plan_for;
use root_workers::Question;
use shared_table::{Pass, SharedStore};
use strategy_tree::{Plan, RootFault};
use win_vectors::WinVector;

/// The plan that is chosen for a vector of the node's front. It is found over the table, if the
/// options say so, by the last pass of a search. What the solver has solved changes nothing.
///
/// `Spent` names a root card whose tree has more nodes than a search may enter.
pub fn chosen_plan(
    question: &Question,
    solver: &mut Solver,
    mut pass: Pass,
    vector: &WinVector,
) -> Result<Plan, RootFault>
    requires pass { IsPassOf question.now.table.now pass }
    requires question { IsQuestion question.now }
    requires target { IsOfFront question.now.node.now question.now.moves vector.now }
    ensures plan { IfOk result (λ plan. IsChosenPlan bridge (plan_of plan)
        question.now.node.now question.now.moves vector.now) }
    ensures spent { NamesSpent question.now result }
{
    let wanted = plan_wanted(question, vector);
    if question.options.table {
        let mut store = SharedStore::new(question.table, &mut pass);
        let found = plan_for(question.alloc, &mut store, solver, &wanted)?;
        Ok(found.plan)
    } else {
        let found = plan_for(question.alloc, &mut NoStore, solver, &wanted)?;
        Ok(found.plan)
    }
}
