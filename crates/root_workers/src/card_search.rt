//! A search after a root card, over the table if the round uses it.
ghost use Rattle.std.specs.Prelude.{◌≡◌, ◌<◌, ◌≤◌, ℕ, length, Contains};
ghost use Rattle.std.specs.Prelude.{IfOk, IsErrOf};
ghost use Rattle.trick_rules.specs.Nodes.{choices};
ghost use Rattle.shared_table.specs.Passes.{IsPassOf};
ghost use Rattle.root_workers.specs.Rounds.{IsRound, IsPlainRound};
ghost use Rattle.root_workers.specs.Rounds.{IsSearchedAfter, HasSeenMore, size_after};

use crate::rounds::Round;
use crate::searches::{SearchResult, after_card};
use alphamu_core::RaceFault;
use card_sets::Card;
use dd_solver::Solver;
use front_table::NoStore;
use pareto_fronts::Front;
use search_race::Runner;
use shared_table::{Pass, SharedStore};

/// What a search finds after a root card in a round, as a runner.
pub fn search_card(
    round: &Round,
    solver: &mut Solver,
    runner: &Runner,
    card: Card,
    alpha: &Front,
    pass: &mut Pass,
) -> Result<SearchResult, RaceFault>
    requires round { IsRound round.now }
    requires pass { IsPassOf round.now.table.now pass.old }
    requires card { Contains (choices round.now.node.now) card }
    requires width { alpha.now.width ≡ length round.now.node.now.lefts }
    ensures searched { IfOk result (IsSearchedAfter round.now card alpha.now.vectors) }
    ensures fits { IsPlainRound round.now
        → IfOk result (λ _. size_after round.now card ≤ round.now.nodes) }
    ensures spent { IsErrOf result RaceFault.Spent → round.now.nodes < size_after round.now card }
    ensures late { IsErrOf result RaceFault.Late → 1 < runner.now.runners }
    ensures pass { IsPassOf round.now.table.now pass.new }
    ensures grown { HasSeenMore pass.old pass.new }
{
    if round.uses_table {
        let mut store = SharedStore::new(round.table, pass);
        after_card(round, &mut store, solver, runner, card, alpha)
    } else {
        after_card(round, &mut NoStore, solver, runner, card, alpha)
    }
}
