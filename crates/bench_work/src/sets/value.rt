//! What one strategy wins.
use alphamu_core::{Budget, SearchFault};
use dd_solver::Solver;
use set_search::{Order, SetMemo, SetQuestion, SetSearch, SetValue};
use std::alloc::Global;
use trick_rules::Node;
use win_vectors::Weights;

// How many sets the memo has room for.
const ROOM: usize = 262_144;

/// What one strategy wins of the layouts of a position, and how many positions a search entered to
/// find out, of at most so many.
///
/// Errors: `Memory` if an allocation fails.
pub fn value_of(alloc: Global, node: &Node, most: u64) -> Result<(SetValue, u64), SearchFault> {
    let mut solver = Solver::new(alloc);
    let mut budget = Budget::new(most);
    let mut memo = SetMemo::new(alloc, node, ROOM)?;
    let mut search = SetSearch {
        solver: &mut solver,
        budget: &mut budget,
        memo: &mut memo,
    };
    let weights = Weights::equal(node.width());
    let question = SetQuestion {
        node,
        moves: 26,
        weights: &weights,
        order: Order::Weight,
    };
    let value = search.value(alloc, &question)?;
    Ok((value, search.budget.entered().count()))
}
