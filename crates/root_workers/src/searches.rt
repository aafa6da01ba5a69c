//! Searches with a budget of their own.
ghost use Rattle.std.specs.Prelude.{◌≡◌, ◌<◌, ◌≤◌, ◌-◌, ℕ, true, length, Contains};
ghost use Rattle.std.specs.Prelude.{IfOk, IsErrOf};
ghost use Rattle.trick_rules.specs.Nodes.{choices};
ghost use Rattle.strategy_games.specs.Plans.{tree_size};
ghost use Rattle.strategy_tree.specs.Bridge.{bridge};
ghost use Rattle.cut_rules.specs.Rules.{no_cuts};
ghost use Rattle.front_table.specs.Proven.{IsFrontAt};
ghost use Rattle.alphamu_core.specs.Findings.{IsFound, IsExact};
ghost use Rattle.alphamu_core.specs.Costs.{IsWithin};
ghost use Rattle.root_workers.specs.Rounds.{IsRound, IsSearchedAfter, size_after};

use crate::rounds::Round;
use alphamu_core::{Budget, Entered, Found, RaceFault, SearchFault, exact_front, search_in_race};
use card_sets::Card;
use dd_solver::Solver;
use front_table::FrontStore;
use pareto_fronts::Front;
use search_race::Runner;
use std::alloc::Global;
use strategy_tree::RootFault;
use trick_rules::Node;

/// What a search found, and how many nodes it entered.
#[derive(Drop)]
pub struct SearchResult {
    pub found: Found,
    pub entered: Entered,
}

// Searches the node after a root card, as a runner.
fn searched<S: FrontStore>(
    round: &Round,
    store: &mut S,
    solver: &mut Solver,
    runner: &Runner,
    child: &Node,
    alpha: &Front,
) -> Result<SearchResult, RaceFault>
    requires round { IsRound round.now }
    requires width { alpha.now.width ≡ length child.now.lefts }
    ensures found { IfOk result (λ searched. IsFound child.now (round.now.moves - 1)
        alpha.now.vectors searched.found) }
    ensures exact { round.now.rules ≡ no_cuts → IfOk result (λ searched. IsExact searched.found) }
    ensures within { IfOk result (λ searched. IsWithin round.now.nodes searched.entered) }
    ensures fits { round.now.rules ≡ no_cuts → S.blind ≡ true
        → IfOk result (λ _. tree_size bridge child.now (round.now.moves - 1) ≤ round.now.nodes) }
    ensures spent { IsErrOf result RaceFault.Spent
        → round.now.nodes < tree_size bridge child.now (round.now.moves - 1) }
    ensures late { IsErrOf result RaceFault.Late → 1 < runner.now.runners }
    ensures grown { S.grown store.old store.new }
{
    let mut budget = Budget::new(round.nodes);
    let found = search_in_race(
        round.alloc,
        store,
        solver,
        runner,
        &mut budget,
        child,
        round.moves - 1,
        alpha,
        round.rules,
    )?;
    Ok(SearchResult {
        found,
        entered: budget.entered(),
    })
}

/// What a search finds after a root card, over a store, as a runner.
pub fn after_card<S: FrontStore>(
    round: &Round,
    store: &mut S,
    solver: &mut Solver,
    runner: &Runner,
    card: Card,
    alpha: &Front,
) -> Result<SearchResult, RaceFault>
    requires round { IsRound round.now }
    requires card { Contains (choices round.now.node.now) card }
    requires width { alpha.now.width ≡ length round.now.node.now.lefts }
    ensures searched { IfOk result (IsSearchedAfter round.now card alpha.now.vectors) }
    ensures fits { round.now.rules ≡ no_cuts → S.blind ≡ true
        → IfOk result (λ _. size_after round.now card ≤ round.now.nodes) }
    ensures spent { IsErrOf result RaceFault.Spent → round.now.nodes < size_after round.now card }
    ensures late { IsErrOf result RaceFault.Late → 1 < runner.now.runners }
    ensures grown { S.grown store.old store.new }
{
    let (child, _) = round.node.child(round.alloc, card)?;
    searched(round, store, solver, runner, &child, alpha)
}

/// The front with no moves: double dummy's result in each layout.
pub fn double_dummy<S: FrontStore>(
    alloc: Global,
    store: &mut S,
    solver: &mut Solver,
    node: &Node,
) -> Result<Front, RootFault>
    ensures front { IfOk result (IsFrontAt node.now 0) }
    ensures never_spent { (card : ℕ) → IsErrOf result (RootFault.Spent card) → ⊥ }
    ensures grown { S.grown store.old store.new }
{
    match exact_front(alloc, store, solver, node, 0, 1) {
        Ok(front) => Ok(front),
        Err(SearchFault::Spent) => unreachable!(),
        Err(SearchFault::Memory) => Err(RootFault::Memory),
    }
}
