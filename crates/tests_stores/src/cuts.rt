//! How many nodes a search enters where one cut, or the store, spares the rest of a small tree.
//! Each test fails if the search lacks what the test is named after.
//!
//! The numbers are counted by hand. Declarer holds SK SJ, and dummy leads S2 from S3 S2. Left has
//! SQ S5 or SA S5, so Right may play S7 in both layouts, SQ in one and SA in the other. After each
//! of the three declarer has two cards, and then no move is left: 1 + 3 * (1 + 2) = 10 nodes.
use crate::endings::{HANDS, KING_JACK, QUEEN_ACE, after, guess, root};
use alphamu_core::{Budget, Found, search};
use cut_rules::{CutRules, Stop};
use dd_solver::Solver;
use front_table::{FrontStore, LocalStore, NoStore};
use pareto_fronts::Front;
use std::alloc::{AllocError, Global};
use std::process::Abort;
use std::test::Fail;
use trick_rules::Node;
use win_vectors::WinVector;

/// The front of the vectors whose bits these are, the first layout first.
fn front_of(rt: &impl Abort, alloc: Global, bits: &[[bool; 2]]) -> Result<Front, AllocError> {
    let mut front = Front::new(alloc, 2);
    for [first, second] in bits {
        let vector = WinVector::none(2).set(0, *first).set(1, *second);
        assert!(rt; front.width() == vector.width());
        front.insert(vector)?;
    }
    Ok(front)
}

/// What may spare a search some nodes: the vectors that are won before it, and the rules.
struct Cuts<'a> {
    alpha: &'a Front,
    rules: CutRules,
}

/// How many nodes a search enters, and whether it finds the front.
fn entered<S: FrontStore>(
    rt: &impl Abort,
    alloc: Global,
    store: &mut S,
    node: &Node,
    moves: u8,
    cuts: Cuts<'_>,
) -> (u64, bool) {
    let Cuts { alpha, rules } = cuts;
    assert!(rt; alpha.width() == node.width() && moves <= 26);
    let budget = &mut Budget::new(1000);
    let solver = &mut Solver::new(alloc);
    match search(alloc, store, solver, budget, node, moves, alpha, rules) {
        Ok(Found::Exact(_)) => (budget.entered().count(), true),
        Ok(Found::Below) => (budget.entered().count(), false),
        Err(_) => panic!(rt; "the search ended with no answer"),
    }
}

/// The same with each cut, after these vectors were won.
fn after_alpha<S: FrontStore>(
    rt: &impl Abort,
    alloc: Global,
    store: &mut S,
    node: &Node,
    moves: u8,
    alpha: &Front,
) -> (u64, bool) {
    let rules = CutRules::all(Stop::Never);
    entered(rt, alloc, store, node, moves, Cuts { alpha, rules })
}

/// The same with neither a store nor anything won before.
fn with_cuts(rt: &impl Abort, alloc: Global, node: &Node, moves: u8) -> (u64, bool) {
    let none = Front::new(alloc, node.width());
    after_alpha(rt, alloc, &mut NoStore, node, moves, &none)
}

/// The same with no cuts, over a store.
fn over<S: FrontStore>(
    rt: &impl Abort,
    alloc: Global,
    store: &mut S,
    node: &Node,
    moves: u8,
) -> (u64, bool) {
    let alpha = &Front::new(alloc, node.width());
    let rules = CutRules::none();
    entered(rt, alloc, store, node, moves, Cuts { alpha, rules })
}

// Fails unless a search of the node after S2, with a move and each cut, enters this many nodes and
// finds that alpha covers what is won. Alpha has the vectors with these bits.
fn assert_below(
    rt: &impl Abort,
    alloc: Global,
    alpha: &[[bool; 2]],
    nodes: u64,
) -> Result<(), Fail> {
    let node = after(rt, alloc, &guess(rt, alloc)?, 0)?;
    let alpha = front_of(rt, alloc, alpha)?;
    let found = after_alpha(rt, alloc, &mut NoStore, &node, 1, &alpha);
    assert_eq!(rt; found, (nodes, false));
    Ok(())
}

// After S7 declarer wins one layout or the other, so that the two vectors of alpha cover what is
// left: 1 + (1 + 2). Else SQ and SA are entered too.
#[test]
fn early_cut(rt: HostRuntime) -> Result<(), Fail> {
    assert_below(&rt, rt.alloc(), &[[true, false], [false, true]], 4)
}

// Alpha wins both layouts, and double dummy can't win more. Else S7 and what follows it are entered
// before the early cut.
#[test]
fn cut_by_double_dummy(rt: HostRuntime) -> Result<(), Fail> {
    assert_below(&rt, rt.alloc(), &[[true, true]], 1)
}

// With a move the node wins one layout or the other, which alpha covers. With two it can't win
// more, and the store says so. Double dummy alone promises both layouts.
#[test]
fn cut_by_fewer_moves(rt: HostRuntime) -> Result<(), Fail> {
    let alloc = rt.alloc();
    let node = after(&rt, alloc, &guess(&rt, alloc)?, 0)?;
    let mut store = LocalStore::new(alloc, 64);
    assert_eq!(rt; over(&rt, alloc, &mut store, &node, 1), (10, true));
    let alpha = front_of(&rt, alloc, &[[true, false], [false, true]])?;
    let found = after_alpha(&rt, alloc, &mut store, &node, 2, &alpha);
    assert_eq!(rt; found, (1, false));
    Ok(())
}

// With two tricks needed neither layout can be made.
#[test]
fn no_layout_can_be_made(rt: HostRuntime) -> Result<(), Fail> {
    let alloc = rt.alloc();
    let node = root(&rt, alloc, &KING_JACK, &QUEEN_ACE, 2, &HANDS)?;
    assert_eq!(rt; with_cuts(&rt, alloc, &node, 2), (1, true));
    Ok(())
}

// After SQ or SA one layout is left: 1 + (1 + 2) + 1 + 1. Else declarer's cards are entered after
// them too.
#[test]
fn one_layout_is_settled(rt: HostRuntime) -> Result<(), Fail> {
    let alloc = rt.alloc();
    let node = after(&rt, alloc, &guess(&rt, alloc)?, 0)?;
    assert_eq!(rt; with_cuts(&rt, alloc, &node, 1), (6, true));
    let node = root(&rt, alloc, &KING_JACK, &QUEEN_ACE, 1, &HANDS[..1])?;
    assert_eq!(rt; with_cuts(&rt, alloc, &node, 2), (1, true));
    Ok(())
}

// If Left has SA SQ, declarer wins no trick. Right may play S5 only then, so S5 isn't entered:
// 1 + (1 + 2) + 1 + 1, as above. Else it is entered too.
#[test]
fn a_lost_layout_is_left_out(rt: HostRuntime) -> Result<(), Fail> {
    let alloc = rt.alloc();
    let hands = [[3, 10], [3, 12], [10, 12]];
    let node = root(&rt, alloc, &KING_JACK, &QUEEN_ACE, 1, &hands)?;
    let node = after(&rt, alloc, &node, 0)?;
    assert_eq!(rt; with_cuts(&rt, alloc, &node, 1), (6, true));
    Ok(())
}

// S3 and S2 are equal: 1 + 6 nodes, as above after S2. Else the other card is entered too.
#[test]
fn equal_cards_once(rt: HostRuntime) -> Result<(), Fail> {
    let alloc = rt.alloc();
    let node = guess(&rt, alloc)?;
    assert_eq!(rt; with_cuts(&rt, alloc, &node, 2), (7, true));
    Ok(())
}

// Declarer has SA SJ. After S2 and S7 the ace wins both layouts, which is all that double dummy
// promises: 1 + 1 nodes. Else the jack is entered too.
#[test]
fn a_card_that_reaches_the_bound(rt: HostRuntime) -> Result<(), Fail> {
    let alloc = rt.alloc();
    let hands = [[3, 10], [3, 11]];
    let node = root(&rt, alloc, &[9, 12], &[3, 5, 10, 11], 1, &hands)?;
    let node = after(&rt, alloc, &after(&rt, alloc, &node, 0)?, 5)?;
    assert_eq!(rt; with_cuts(&rt, alloc, &node, 1), (2, true));
    Ok(())
}

/// The node that a search begins at: the root where one trick is needed, or the node after S2.
#[derive(Clone, Copy)]
enum Start {
    Root,
    AfterTwo,
}

// Fails unless these searches, one after another over one store and with no cuts, enter this many
// nodes. Each has its start and its moves.
fn assert_over_one_store(
    rt: &impl Abort,
    alloc: Global,
    searches: &[(Start, u8, u64)],
) -> Result<(), Fail> {
    let root = guess(rt, alloc)?;
    let two = after(rt, alloc, &root, 0)?;
    let mut store = LocalStore::new(alloc, 64);
    for (start, moves, nodes) in searches {
        let found = match start {
            Start::Root => over(rt, alloc, &mut store, &root, *moves),
            Start::AfterTwo => over(rt, alloc, &mut store, &two, *moves),
        };
        assert_eq!(rt; found, (*nodes, true));
    }
    Ok(())
}

// Of the 1 + 10 + 10 nodes below the root the store spares all but the first after S2.
#[test]
fn an_inner_node_is_looked_up(rt: HostRuntime) -> Result<(), Fail> {
    let searches = [(Start::AfterTwo, 1, 10), (Start::Root, 2, 12)];
    assert_over_one_store(&rt, rt.alloc(), &searches)
}

// A search of the root leaves the front after S2 in the store, and its own.
#[test]
fn an_inner_node_is_put(rt: HostRuntime) -> Result<(), Fail> {
    let searches = [
        (Start::Root, 2, 21),
        (Start::AfterTwo, 1, 1),
        (Start::Root, 2, 1),
    ];
    assert_over_one_store(&rt, rt.alloc(), &searches)
}

// S4 in place of S5: the cards in play lie alike, so the store has the front already. Else the root
// and what follows it are entered again.
#[test]
fn cards_that_lie_alike(rt: HostRuntime) -> Result<(), Fail> {
    let alloc = rt.alloc();
    let none = Front::new(alloc, 2);
    let mut store = LocalStore::new(alloc, 64);
    let node = guess(&rt, alloc)?;
    assert_eq!(rt;
        after_alpha(&rt, alloc, &mut store, &node, 2, &none),
        (7, true)
    );
    let alike = root(
        &rt,
        alloc,
        &KING_JACK,
        &[2, 5, 10, 12],
        1,
        &[[2, 10], [2, 12]],
    )?;
    assert_eq!(rt;
        after_alpha(&rt, alloc, &mut store, &alike, 2, &none),
        (1, true)
    );
    Ok(())
}
