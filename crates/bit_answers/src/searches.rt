//! The searches at the node of a question, by the caller alone.
ghost use Rattle.std.specs.Prelude.{◌≡◌, ◌-◌, true, IfOk, IfErr};
ghost use Rattle.card_sets.specs.SetWords.{has_card};
ghost use Rattle.trick_rules.specs.Nodes.{choices, child};
ghost use Rattle.strategy_games.specs.Choosing.{IsBestWeight, IsNamedByWeight};
ghost use Rattle.strategy_tree.specs.Bridge.{bridge};
ghost use Rattle.front_table.specs.Proven.{IsFrontAt};
ghost use Rattle.shared_table.specs.Passes.{IsPassOf};
ghost use Rattle.bit_answers.specs.Ready.{IsReady, IsSearchFault};

use alphamu_core::{Budget, Found, SearchFault, search};
use am_outside::OpenGate;
use bit_questions::Asked;
use card_sets::Card;
use cut_rules::{CutRules, Stop};
use dd_solver::Solver;
use pareto_fronts::Front;
use root_workers::{Alone, Options, Question, RootCard, RootWorker};
use search_race::Runner;
use shared_table::{Pass, SharedStore, SharedTable};
use std::alloc::{AllocError, Global};
use std::slice;
use strategy_tree::RootFault;

/// The table of a question's searches, and its first pass.
pub fn new_table(alloc: Global) -> Result<(SharedTable, Pass), AllocError>
    ensures { IfOk result (λ made. IsPassOf made.0 made.1) }
{
    SharedTable::new(alloc, 16, 16_384)
}

/// The card to play, and its weight.
pub fn root_card(alloc: Global, asked: &Asked) -> Result<RootCard, RootFault>
    requires { IsReady asked.now }
    ensures card { IfOk result (λ root. IsNamedByWeight bridge asked.now.weights asked.now.node
        asked.now.moves root.card) }
    ensures weight { IfOk result (λ root. IsBestWeight bridge asked.now.weights asked.now.node
        asked.now.moves root.weight) }
    ensures refused { IfErr result (IsSearchFault asked.now) }
{
    let options = Options {
        nodes: asked.nodes,
        workers: 1,
        table: true,
        cuts: true,
    };
    let (table, mut pass) = new_table(alloc)?;
    let question = Question {
        alloc,
        node: &asked.node,
        moves: asked.moves,
        weights: &asked.weights,
        options: &options,
        table: &table,
    };
    question.card(&Alone { gate: &OpenGate }, &mut pass)
}

/// The caller as a worker who has solved nothing.
///
/// No clause: no answer depends on a worker's number, or on what it has solved.
pub fn only_worker(alloc: Global) -> RootWorker {
    RootWorker {
        number: 0,
        solver: Solver::new(alloc),
        runner: Runner::alone(),
    }
}

/// The front, over a table and by a pass of it. The worker keeps what it solves.
pub fn front_over(
    alloc: Global,
    asked: &Asked,
    table: &SharedTable,
    pass: &mut Pass,
    worker: &mut RootWorker,
) -> Result<Front, RootFault>
    requires ready { IsReady asked.now }
    requires pass { IsPassOf table.now pass.old }
    ensures front { IfOk result (IsFrontAt asked.now.node asked.now.moves) }
    ensures refused { IfErr result (IsSearchFault asked.now) }
    ensures pass { IsPassOf table.now pass.new }
{
    let options = Options {
        nodes: asked.nodes,
        workers: 1,
        table: true,
        cuts: true,
    };
    let question = Question {
        alloc,
        node: &asked.node,
        moves: asked.moves,
        weights: &asked.weights,
        options: &options,
        table,
    };
    let workers = slice::from_mut(worker);
    match question.front_by(&Alone { gate: &OpenGate }, pass, workers) {
        Ok(found) => Ok(found.front),
        Err(fault) => Err(fault),
    }
}

/// The front.
pub fn root_front(alloc: Global, asked: &Asked) -> Result<Front, RootFault>
    requires { IsReady asked.now }
    ensures front { IfOk result (IsFrontAt asked.now.node asked.now.moves) }
    ensures refused { IfErr result (IsSearchFault asked.now) }
{
    let (table, mut pass) = new_table(alloc)?;
    front_over(alloc, asked, &table, &mut pass, &mut only_worker(alloc))
}

/// The front after a root card, whole, whatever the other cards win.
pub fn front_after(
    alloc: Global,
    table: &SharedTable,
    pass: &mut Pass,
    solver: &mut Solver,
    asked: &Asked,
    card: Card,
) -> Result<Front, RootFault>
    requires ready { IsReady asked.now }
    requires card { has_card (choices asked.now.node) card ≡ true }
    requires pass { IsPassOf table.now pass.old }
    ensures front { IfOk result (IsFrontAt (child asked.now.node card) (asked.now.moves - 1)) }
    ensures refused { IfErr result (IsSearchFault asked.now) }
    ensures pass { IsPassOf table.now pass.new }
{
    let (child, _) = asked.node.child(alloc, card)?;
    let alpha = Front::new(alloc, child.width());
    let mut budget = Budget::new(asked.nodes);
    let mut store = SharedStore::new(table, pass);
    let found = search(
        alloc,
        &mut store,
        solver,
        &mut budget,
        &child,
        asked.moves - 1,
        &alpha,
        CutRules::all(Stop::Never),
    );
    match found {
        Ok(Found::Exact(front)) => Ok(front),
        Ok(Found::Below) => unreachable!(),
        Err(SearchFault::Spent) => Err(RootFault::Spent(card)),
        Err(SearchFault::Memory) => Err(RootFault::Memory),
    }
}
