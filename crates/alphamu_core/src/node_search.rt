//! The search of a node.
ghost use Rattle.std.specs.Prelude.{◌≡◌, ◌+◌, ◌<◌, ◌≤◌, ◌⊎◌, [], true, length, IfOk, IsErrOf};
ghost use Rattle.strategy_games.specs.Plans.{tree_size};
ghost use Rattle.strategy_tree.specs.Bridge.{bridge};
ghost use Rattle.cut_rules.specs.Rules.{no_cuts};
ghost use Rattle.alphamu_core.specs.Findings.{IsFound, IsExact};
ghost use Rattle.trick_rules.specs.Nodes.{most_moves};

use crate::answers::{Answer, Found, RaceFault, SearchFault};
use crate::budget::Budget;
use crate::known::Known;
use crate::scratch::Scratch;
use crate::tree_search::TreeSearch;
use cut_rules::CutRules;
use dd_solver::Solver;
use front_table::FrontStore;
use pareto_fronts::Front;
use search_race::Runner;
use std::alloc::Global;
use trick_rules::Node;

/// Searches a node with `moves` moves of declarer's side, at most 26.
///
/// A list of vectors, alpha, may spare work: a node may be left if alpha dominates what every
/// strategy wins there. The store may hold fronts already, and may be given some. The budget pays
/// for each node that is entered: no more nodes are entered than it still allows, whatever the
/// rules.
pub fn search<S: FrontStore>(
    alloc: Global,
    store: &mut S,
    solver: &mut Solver,
    budget: &mut Budget,
    node: &Node,
    moves: u8,
    alpha: &Front,
    rules: CutRules,
) -> Result<Found, SearchFault>
    requires width { alpha.now.width ≡ length node.now.lefts }
    requires few_moves { moves ≤ most_moves }
    ensures found { IfOk result (IsFound node.now moves alpha.now.vectors) }
    ensures never { (alpha.now.vectors ≡ []) ⊎ (rules ≡ no_cuts) → IfOk result IsExact }

    // Each node entered costs one.
    ensures spent { IsErrOf result SearchFault.Spent
        → budget.old.left < tree_size bridge node.now moves }
    ensures counts { rules ≡ no_cuts → S.blind ≡ true
        → IfOk result (λ _. budget.new.left + tree_size bridge node.now moves
        ≡ budget.old.left) }
    ensures entered { IfOk result (λ _. budget.new.left < budget.old.left) }
    ensures never_rises { budget.new.left ≤ budget.old.left }
    ensures falls { budget.old.left ≤ budget.new.left + tree_size bridge node.now moves }
    ensures nodes { budget.new.nodes ≡ budget.old.nodes }

    ensures grown { S.grown store.old store.new }
{
    let alone = Runner::alone();
    match search_in_race(
        alloc, store, solver, &alone, budget, node, moves, alpha, rules,
    ) {
        Ok(found) => Ok(found),
        Err(RaceFault::Spent) => Err(SearchFault::Spent),
        Err(RaceFault::Memory) => Err(SearchFault::Memory),
        Err(RaceFault::Late) => unreachable!(),
    }
}

/// The same in a race: each runner begins at a place of its own, and once one of them has the
/// answer, the search of another ends as `Late`.
pub fn search_in_race<S: FrontStore>(
    alloc: Global,
    store: &mut S,
    solver: &mut Solver,
    runner: &Runner,
    budget: &mut Budget,
    node: &Node,
    moves: u8,
    alpha: &Front,
    rules: CutRules,
) -> Answer
    requires width { alpha.now.width ≡ length node.now.lefts }
    requires few_moves { moves ≤ most_moves }
    ensures found { IfOk result (IsFound node.now moves alpha.now.vectors) }
    ensures never { (alpha.now.vectors ≡ []) ⊎ (rules ≡ no_cuts) → IfOk result IsExact }

    // Each node entered costs one.
    ensures spent { IsErrOf result RaceFault.Spent
        → budget.old.left < tree_size bridge node.now moves }
    ensures counts { rules ≡ no_cuts → S.blind ≡ true
        → IfOk result (λ _. budget.new.left + tree_size bridge node.now moves
        ≡ budget.old.left) }
    ensures entered { IfOk result (λ _. budget.new.left < budget.old.left) }
    ensures never_rises { budget.new.left ≤ budget.old.left }
    ensures falls { budget.old.left ≤ budget.new.left + tree_size bridge node.now moves }
    ensures nodes { budget.new.nodes ≡ budget.old.nodes }

    ensures late { IsErrOf result RaceFault.Late → 1 < runner.now.runners }
    ensures grown { S.grown store.old store.new }
{
    let mut scratch = Scratch::new(alloc, node)?;
    let node = node.copy(alloc)?;
    let mut search = TreeSearch {
        alloc,
        store,
        solver,
        runner,
        budget,
        scratch: &mut scratch,
        rules,
    };
    search.visit(node, moves, alpha, Known::Nothing)
}
