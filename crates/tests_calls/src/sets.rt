//! Sets of layouts that one strategy wins together, or none does.
use crate::endings::{LEFT, OTHER, ending, spades};
use alphamu_core::Budget;
use dd_solver::Solver;
use set_search::{Order, SetMemo, SetQuestion, SetSearch, Verdict};
use std::alloc::{AllocError, Global};
use std::test::Fail;
use trick_rules::Node;
use win_vectors::{Weights, WinVector};

// Whether one strategy wins all layouts of a node. It never runs out of these nodes.
fn is_won(alloc: Global, node: &Node) -> Result<bool, AllocError> {
    let mut solver = Solver::new(alloc);
    let mut budget = Budget::new(1_000);
    let mut memo = SetMemo::new(alloc, node, 64)?;
    let mut search = SetSearch {
        solver: &mut solver,
        budget: &mut budget,
        memo: &mut memo,
    };
    let answer = search.is_winnable(node, 26, WinVector::all(node.width()));
    Ok(matches!(&answer, Ok(Verdict::Won)))
}

// How many positions a second question enters, after the same question was answered once.
fn entered_again(alloc: Global, node: &Node) -> Result<u64, AllocError> {
    let mut solver = Solver::new(alloc);
    let mut budget = Budget::new(1_000);
    let mut memo = SetMemo::new(alloc, node, 64)?;
    let mut search = SetSearch {
        solver: &mut solver,
        budget: &mut budget,
        memo: &mut memo,
    };
    let all = WinVector::all(node.width());
    let _ = search.is_winnable(node, 26, all);
    let before = search.budget.left();
    let _ = search.is_winnable(node, 26, all);
    Ok(before.saturating_sub(search.budget.left()))
}

// Whether the search tells this set, and as exact, if layouts have these weights.
fn is_told(
    alloc: Global,
    node: &Node,
    nodes: u64,
    weights: &Weights,
    set: WinVector,
) -> Result<bool, AllocError> {
    if weights.width() != node.width() {
        return Ok(false);
    }
    let mut solver = Solver::new(alloc);
    let mut budget = Budget::new(nodes);
    let mut memo = SetMemo::new(alloc, node, 64)?;
    let mut search = SetSearch {
        solver: &mut solver,
        budget: &mut budget,
        memo: &mut memo,
    };
    let question = SetQuestion {
        node,
        moves: 26,
        weights,
        order: Order::Report,
    };
    match search.value(alloc, &question) {
        Ok(found) => Ok(found.least == found.most && found.won.equals(set)),
        Err(_) => Ok(false),
    }
}

// One trick is needed. The king makes it if Left has the queen, and the jack if he has the ace. Right
// plays the seven in both, so no strategy wins both.
#[test]
fn the_king_or_the_jack(rt: HostRuntime) -> Result<(), Fail> {
    let alloc = rt.alloc();
    let position = ending(&rt, 1);
    let queen = spades(LEFT);
    let ace = spades(OTHER);
    assert!(rt; position.fits(queen));
    assert!(rt; position.fits(ace));
    let with_queen = Node::new(alloc, position.copy(), [queen].as_slice())?;
    let with_ace = Node::new(alloc, position.copy(), [ace].as_slice())?;
    let with_either = Node::new(alloc, position, [queen, ace].as_slice())?;
    assert!(rt; is_won(alloc, &with_queen)?);
    assert!(rt; is_won(alloc, &with_ace)?);
    assert!(rt; !is_won(alloc, &with_either)?);
    let first = WinVector::none(2).set(0, true);
    let second = WinVector::none(2).set(1, true);
    let one = WinVector::all(1);
    assert!(rt; is_told(alloc, &with_queen, 1_000, &Weights::equal(1), one)?);
    // Of two sets that weigh the same the first is told, else the heavier one.
    let equal = Weights::equal(2);
    assert!(rt; is_told(alloc, &with_either, 1_000, &equal, first)?);
    assert!(rt; !is_told(alloc, &with_either, 1, &equal, first)?);
    assert!(rt; is_told(alloc, &with_either, 1_000, &equal.set(1, 3), second)?);
    // The memo answers it the second time.
    assert!(rt; entered_again(alloc, &with_either)? == 1);
    Ok(())
}
