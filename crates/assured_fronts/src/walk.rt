//! What is assured at a node.
ghost use Rattle.std.specs.Prelude.{◌≡◌, ◌+◌, ◌<◌, ◌≤◌, IfOk, IsErrOf};
ghost use Rattle.strategy_games.specs.Plans.{tree_size};
ghost use Rattle.strategy_tree.specs.Bridge.{bridge};
ghost use Rattle.assured_fronts.specs.AssuredAt.{IsAssuredAt};
ghost use Rattle.assured_fronts.specs.AfterReplies.{Waits, AreAfterReplies};

use crate::memo::AssuredMemo;
use crate::replies::AfterReply;
use crate::search::AssuredSearch;
use alphamu_core::{Budget, SearchFault};
use dd_solver::Solver;
use pareto_fronts::Front;
use std::alloc::Global;
use trick_rules::Node;

/// The front of what is assured at a node with `moves` moves of declarer's side, in printing order.
/// The budget pays for each node that is entered.
///
/// Errors: `Spent` if the tree of αμ, which goes on at sure nodes, has more nodes than the budget
/// allows; `Memory`.
pub fn assured_front(
    alloc: Global,
    solver: &mut Solver,
    budget: &mut Budget,
    node: &Node,
    moves: u8,
) -> Result<Front, SearchFault>
    ensures front { IfOk result (IsAssuredAt node.now moves) }
    ensures spent { IsErrOf result SearchFault.Spent
        → budget.old.left < tree_size bridge node.now moves }
    ensures entered { IfOk result (λ _. budget.new.left < budget.old.left) }
    ensures never_rises { budget.new.left ≤ budget.old.left }
    ensures falls { budget.old.left ≤ budget.new.left + tree_size bridge node.now moves }
    ensures nodes { budget.new.nodes ≡ budget.old.nodes }
{
    let mut memo = AssuredMemo::new(alloc);
    let mut search = AssuredSearch {
        alloc,
        solver,
        budget,
        memo: &mut memo,
    };
    search.visit(node, moves, false)
}

/// What is assured after each card of a defender, in card order, at a node where one is to play and
/// play goes on. The budget pays for the node and for each that is entered below it.
///
/// Errors: as of `assured_front`.
pub fn assured_replies(
    alloc: Global,
    solver: &mut Solver,
    budget: &mut Budget,
    node: &Node,
    moves: u8,
) -> Result<Vec<AfterReply>, SearchFault>
    requires { Waits node.now moves }
    ensures replies { IfOk result (λ found. AreAfterReplies node.now moves found.items) }
    ensures spent { IsErrOf result SearchFault.Spent
        → budget.old.left < tree_size bridge node.now moves }
    ensures nodes { budget.new.nodes ≡ budget.old.nodes }
{
    let mut memo = AssuredMemo::new(alloc);
    let mut search = AssuredSearch {
        memo: &mut memo,
        alloc,
        solver,
        budget,
    };
    search.replies(node, moves)
}
