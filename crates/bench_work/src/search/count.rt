//! How many nodes a search enters.
ghost use Rattle.std.specs.Prelude.{◌≤◌};
ghost use Rattle.trick_rules.specs.Nodes.{most_moves};

use alphamu_core::{Budget, Found, search};
use cut_rules::{CutRules, Stop};
use dd_solver::Solver;
use front_table::{FrontStore, LocalStore, NoStore};
use pareto_fronts::Front;
use std::alloc::Global;
use trick_rules::Node;

// The nodes entered and the length of the front, over this store and by these rules.
fn counted<S: FrontStore>(
    alloc: Global,
    store: &mut S,
    node: &Node,
    moves: u8,
    rules: CutRules,
) -> Option<(u64, usize)>
    requires { moves ≤ most_moves }
{
    let solver = &mut Solver::new(alloc);
    let budget = &mut Budget::new(u64::MAX);
    let alpha = &Front::new(alloc, node.width());
    let found = search(alloc, store, solver, budget, node, moves, alpha, rules);
    match found {
        Ok(Found::Exact(front)) => Some((u64::MAX - budget.left(), front.len())),
        _ => None,
    }
}

/// The nodes that a search of the position enters, and the length of its front; none if an
/// allocation fails.
pub fn count_nodes(alloc: Global, node: &Node, moves: u8, with_cuts: bool) -> Option<(u64, usize)>
    requires { moves ≤ most_moves }
{
    if with_cuts {
        let mut store = LocalStore::new(alloc, 65_536);
        counted(alloc, &mut store, node, moves, CutRules::all(Stop::Never))
    } else {
        counted(alloc, &mut NoStore, node, moves, CutRules::none())
    }
}
