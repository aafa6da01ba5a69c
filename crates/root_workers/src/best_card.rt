//! A round: what workers know of the root cards, put together in card order.
ghost use Rattle.std.specs.Prelude.{◌≢◌, ◌≤◌, ℕ, length, IfOk, IfSome, IsErrOf};
ghost use Rattle.strategy_games.specs.Choosing.{IsBestWeight, IsNamedByWeight};
ghost use Rattle.strategy_tree.specs.Bridge.{bridge};
ghost use Rattle.cut_rules.specs.Rules.{no_cuts};
ghost use Rattle.front_table.specs.Proven.{IsFrontAt};
ghost use Rattle.alphamu_core.specs.Costs.{IsWithin};
ghost use Rattle.shared_table.specs.Passes.{IsPassOf};
ghost use Rattle.strategy_tree.specs.RootTrees.{IsSpentAt, IsFirstSpentAt, AllFit};
ghost use Rattle.root_workers.specs.Founds.{AreFound};
ghost use Rattle.root_workers.specs.Questions.{IsRoundEnd};
ghost use Rattle.root_workers.specs.Rounds.{IsRound, IsPlainRound, IsKnownAt};
ghost use Rattle.root_workers.specs.Rounds.{HasSeenMore, IsCardEnd};
ghost use Rattle.root_workers.specs.Tasks.{IsCardSearch, IsFrontSearch};
ghost use Rattle.worker_pool.specs.Findings.{AreRight};

use crate::card_search::search_card;
use crate::crew::{RootCrew, Searched};
use crate::leading::{found, is_enough, with_card};
use crate::round_work::RoundWork;
use crate::rounds::{CardSearch, Help, Round, RoundFront, Task};
use crate::searches::SearchResult;
use crate::worker_results::Known;
use crate::workers::{RootWorker, wants_help};
use alphamu_core::{Found, RaceFault};
use am_outside::Gate;
use card_sets::Card;
use cut_rules::Stop;
use pareto_fronts::Front;
use search_race::Runner;
use shared_table::Pass;
use strategy_tree::RootFault;
use worker_pool::{Finding, take_finding};

// What the workers have reported of the root card at a place.
fn reported<G: Gate>(
    round: &Round,
    gate: &G,
    findings: &mut Vec<Finding<Known>>,
    place: u32,
) -> Option<Known>
    requires right { AreRight (IsKnownAt round.now) findings.old.items }
    ensures right { AreRight (IsKnownAt round.now) findings.new.items }
    ensures known { IfSome result (IsKnownAt round.now place) }
{
    let task = Task {
        round,
        help: Help::Cards,
    };
    let work = RoundWork {
        task: &task,
        gate,
        count: 0,
    };
    take_finding(&work, findings, place)
}

// What a race of all workers after a root card tells, if their help pays.
fn raced<'a, C: RootCrew>(
    crew: &C,
    round: &Round,
    workers: &mut [RootWorker],
    pass: &mut Pass,
    at: &'a CardSearch<'a>,
) -> Option<Known>
    requires ready { C.ready crew.now }
    requires round { IsRound round.now }
    requires some { 1 ≤ length workers.old }
    requires pass { IsPassOf round.now.table.now pass.old }
    requires at { IsCardSearch round.now at.now }
    ensures known { IfSome result (IsKnownAt round.now at.now.place) }
    ensures pass { IsPassOf round.now.table.now pass.new }
    ensures grown { HasSeenMore pass.old pass.new }
{
    if !round.rules.bound || !wants_help(round.alloc, workers) {
        return None;
    }
    let task = Task {
        round,
        help: Help::Race(at),
    };
    workers[0].runner.begin();
    let findings = crew.searched(&task, workers, pass);
    workers[0].runner.begin();
    let Finding { place: _, found } = findings.ok()?.pop()?;
    Some(found)
}

// What is found after a root card: by what the workers know, or else by a search now.
fn after_place<'a, C: RootCrew>(
    crew: &C,
    round: &Round,
    workers: &mut [RootWorker],
    pass: &mut Pass,
    findings: &mut Vec<Finding<Known>>,
    at: &'a CardSearch<'a>,
) -> Result<SearchResult, RootFault>
    requires ready { C.ready crew.now }
    requires round { IsRound round.now }
    requires some { 1 ≤ length workers.old }
    requires pass { IsPassOf round.now.table.now pass.old }
    requires right { AreRight (IsKnownAt round.now) findings.old.items }
    requires at { IsFrontSearch round.now at.now }
    ensures end { IsCardEnd round.now at.now.card at.now.alpha.now.vectors result }
    ensures right { AreRight (IsKnownAt round.now) findings.new.items }
    ensures pass { IsPassOf round.now.table.now pass.new }
    ensures grown { HasSeenMore pass.old pass.new }
{
    if let Some(known) = reported(round, crew.gate(), findings, at.place) {
        return known.result(at.card);
    }
    if let Some(known) = raced(crew, round, workers, pass, at) {
        return known.result(at.card);
    }
    search_alone(crew.gate(), round, at, &mut workers[0], pass)
}

// What a search by the caller alone finds, between the gate's `enter` and `leave`.
fn search_alone<G: Gate>(
    gate: &G,
    round: &Round,
    at: &CardSearch,
    worker: &mut RootWorker,
    pass: &mut Pass,
) -> Result<SearchResult, RootFault>
    requires round { IsRound round.now }
    requires pass { IsPassOf round.now.table.now pass.old }
    requires at { IsFrontSearch round.now at.now }
    ensures end { IsCardEnd round.now at.now.card at.now.alpha.now.vectors result }
    ensures pass { IsPassOf round.now.table.now pass.new }
    ensures grown { HasSeenMore pass.old pass.new }
{
    gate.enter(worker.number, at.card);
    let alone = Runner::alone();
    let solver = &mut worker.solver;
    let found = search_card(round, solver, &alone, at.card, at.alpha, pass);
    gate.leave(worker.number, at.card);
    match found {
        Ok(searched) => Ok(searched),
        Err(RaceFault::Spent) => Err(RootFault::Spent(at.card)),
        Err(RaceFault::Memory) => Err(RootFault::Memory),
        Err(RaceFault::Late) => unreachable!(),
    }
}

/// The best over the root cards, in card order, by what workers know of them. A card of which
/// nothing is known is searched now, and what the cards before it win is its alpha. The loop stops
/// by the front with a move less, as the rules say.
///
/// If it stops by the weight, the front is that of the cards until then.
pub fn best_over<C: RootCrew>(
    crew: &C,
    round: &Round,
    workers: &mut [RootWorker],
    pass: &mut Pass,
    mut findings: Vec<Finding<Known>>,
) -> Result<RoundFront, RootFault>
    requires ready { C.ready crew.now }
    requires some { 1 ≤ length workers.old }
    requires round { IsRound round.now }
    requires pass { IsPassOf round.now.table.now pass.old }
    requires right { AreRight (IsKnownAt round.now) findings.items }
    ensures front { round.now.rules.stop ≢ Stop.SameWeight
        → IfOk result (λ root. IsFrontAt round.now.node.now round.now.moves root.front) }
    ensures card { IfOk result (λ root. IsNamedByWeight bridge round.now.weights.now
        round.now.node.now round.now.moves root.card) }
    ensures weight { IfOk result (λ root. IsBestWeight bridge round.now.weights.now
        round.now.node.now round.now.moves root.weight) }
    ensures founds { round.now.rules.stop ≢ Stop.SameWeight → IfOk result (λ root.
        AreFound round.now.node.now round.now.moves (round.now.rules ≢ no_cuts)
        root.founds.items) }
    ensures within { IfOk result (λ root. IsWithin round.now.nodes root.most) }
    ensures fits { IsPlainRound round.now
        → IfOk result (λ _. AllFit round.now.node.now round.now.moves round.now.nodes) }
    ensures spent { (card : ℕ) → IsErrOf result (RootFault.Spent card)
        → IsSpentAt round.now.node.now round.now.moves round.now.nodes card }
    ensures first_spent { IsPlainRound round.now → (card : ℕ)
        → IsErrOf result (RootFault.Spent card)
        → IsFirstSpentAt round.now.node.now round.now.moves round.now.nodes card }
    ensures pass { IsPassOf round.now.table.now pass.new }
    ensures grown { HasSeenMore pass.old pass.new }
{
    let mut front = Front::new(round.alloc, round.node.width());
    let mut best = None;
    let mut founds = Vec::new(round.alloc);
    let mut most = None;
    let mut place = 0;
    let mut cards = round.node.choices();
    'cards: while let Some(card) = cards.pop_first() {
        let alpha = &front;
        let at = CardSearch { place, card, alpha };
        let below = after_place(crew, round, workers, pass, &mut findings, &at)?;
        place += 1;
        let entered = below.entered.larger(most);
        most = Some(entered);
        let outcome = below.found;
        match outcome {
            Found::Exact(won) => {
                let lead = with_card(&mut front, round.weights, best, card, &won)?;
                founds.push(Found::Exact(won))?;
                if is_enough(
                    round.rules.stop,
                    &front,
                    lead.1,
                    round.previous,
                    round.weights,
                ) {
                    return Ok(found(front, lead, founds, entered));
                }
                best = Some(lead);
            }
            Found::Below => founds.push(Found::Below)?,
        }
    }
    match best {
        Some(best) => Ok(found(front, best, founds, most.unwrap())),
        None => unreachable!(),
    }
}

// What the workers report of the root cards. With cuts they share none, since what is won after one
// card spares most of the search after another: they race after each.
fn shared_out<C: RootCrew>(
    crew: &C,
    round: &Round,
    workers: &mut [RootWorker],
    pass: &mut Pass,
) -> Searched
    requires ready { C.ready crew.now }
    requires round { IsRound round.now }
    requires some { 1 ≤ length workers.old }
    requires pass { IsPassOf round.now.table.now pass.old }
    ensures right { IfOk result (λ findings. AreRight (IsKnownAt round.now) findings.items) }
    ensures pass { IsPassOf round.now.table.now pass.new }
    ensures grown { HasSeenMore pass.old pass.new }
{
    if round.rules.bound {
        return Ok(Vec::new(round.alloc));
    }
    let task = Task {
        round,
        help: Help::Cards,
    };
    crew.searched(&task, workers, pass)
}

/// A round: the workers search root cards side by side, or with cuts race after each, and what they
/// know is put together.
pub fn run_round<C: RootCrew>(
    crew: &C,
    round: &Round,
    workers: &mut [RootWorker],
    pass: &mut Pass,
) -> Result<RoundFront, RootFault>
    requires ready { C.ready crew.now }
    requires round { IsRound round.now }
    requires some { 1 ≤ length workers.old }
    requires pass { IsPassOf round.now.table.now pass.old }
    ensures end { IsRoundEnd round.now result }
    ensures pass { IsPassOf round.now.table.now pass.new }
    ensures grown { HasSeenMore pass.old pass.new }
{
    let findings = shared_out(crew, round, workers, pass)?;
    best_over(crew, round, workers, pass, findings)
}
