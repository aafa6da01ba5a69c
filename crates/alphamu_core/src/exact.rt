//! The front of a node by a search of its own.
ghost use Rattle.std.specs.Prelude.{◌≡◌, ◌<◌, ◌≤◌, true, IfOk, IsErrOf};
ghost use Rattle.strategy_games.specs.Plans.{tree_size};
ghost use Rattle.strategy_tree.specs.Bridge.{bridge};
ghost use Rattle.front_table.specs.Proven.{IsFrontAt};
ghost use Rattle.trick_rules.specs.Nodes.{most_moves};

use crate::answers::{Found, SearchFault};
use crate::budget::Budget;
use crate::node_search::search;
use cut_rules::CutRules;
use dd_solver::Solver;
use front_table::FrontStore;
use pareto_fronts::Front;
use std::alloc::Global;
use trick_rules::Node;

/// The front of a node with `moves` moves of declarer's side, at most 26: searched to its end,
/// within `nodes` nodes.
pub fn exact_front<S: FrontStore>(
    alloc: Global,
    store: &mut S,
    solver: &mut Solver,
    node: &Node,
    moves: u8,
    nodes: u64,
) -> Result<Front, SearchFault>
    requires { moves ≤ most_moves }
    ensures front { IfOk result (IsFrontAt node.now moves) }
    ensures fits { S.blind ≡ true → IfOk result (λ _. tree_size bridge node.now moves ≤ nodes) }
    ensures spent { IsErrOf result SearchFault.Spent → nodes < tree_size bridge node.now moves }
    ensures grown { S.grown store.old store.new }
{
    let mut budget = Budget::new(nodes);
    let alpha = Front::new(alloc, node.width());
    match search(
        alloc,
        store,
        solver,
        &mut budget,
        node,
        moves,
        &alpha,
        CutRules::none(),
    )? {
        Found::Exact(front) => Ok(front),
        Found::Below => unreachable!(),
    }
}
