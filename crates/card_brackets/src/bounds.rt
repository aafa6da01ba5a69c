//! The two bounds of what is won after a card.
ghost use Rattle.std.specs.Prelude.{◌≡◌, ◌<◌, ◌≤◌, ◌-◌, true, false, length, IfOk, IsErrOf};
ghost use Rattle.win_vectors.specs.Weights.{weight_of};
ghost use Rattle.strategy_games.specs.Plans.{tree_size};
ghost use Rattle.strategy_tree.specs.Bridge.{bridge};
ghost use Rattle.cut_rules.specs.Rules.{no_cuts};
ghost use Rattle.front_table.specs.Proven.{IsFrontAt};
ghost use Rattle.alphamu_core.specs.Costs.{IsWithin};
ghost use Rattle.assured_games.specs.Assured.{IsLeastBy};
ghost use Rattle.sure_nodes.specs.SureNodes.{is_sure_node};
ghost use Rattle.shared_table.specs.Passes.{IsPassOf};
ghost use Rattle.root_workers.specs.Plain.{IsPlain};
ghost use Rattle.root_workers.specs.Questions.{IsQuestion};

use crate::heaviest::heaviest;
use alphamu_core::{Budget, Entered, Found, SearchFault, search};
use assured_fronts::{assured_front, assured_replies, waits};
use cut_rules::{CutRules, Stop, greatest_weight};
use dd_solver::Solver;
use front_table::{FrontStore, NoStore};
use pareto_fronts::Front;
use root_workers::{Options, Question};
use shared_table::{Pass, SharedStore};
use trick_rules::Node;

/// The front after a card, and the greatest weight that is assured after it.
#[derive(Drop)]
pub struct Bounds {
    pub front: Front,
    pub least: u32,
    /// What the search for the front entered.
    pub entered: Entered,
    /// What the search for what is assured entered.
    pub assured: Entered,
}

// A front, and what its search entered.
#[derive(Drop)]
struct WholeFront {
    front: Front,
    entered: Entered,
}

// The greatest weight that is assured, and what its search entered.
#[derive(Clone, Copy)]
struct LeastWeight {
    weight: u32,
    entered: Entered,
}

// The rules by which a node is searched to its end.
fn rules_of(options: &Options) -> CutRules
    ensures { options.now.cuts ≡ false → result ≡ no_cuts }
{
    if options.cuts {
        CutRules::all(Stop::Never)
    } else {
        CutRules::none()
    }
}

// The front after a root card, whole, whatever the other cards win, over a store. `child` is the
// node after it.
fn whole_front<S: FrontStore>(
    question: &Question,
    store: &mut S,
    solver: &mut Solver,
    child: &Node,
) -> Result<WholeFront, SearchFault>
    requires question { IsQuestion question.now }
    ensures front { IfOk result
        (λ found. IsFrontAt child.now (question.now.moves - 1) found.front) }
    ensures within { IfOk result (λ found.
        IsWithin question.now.options.now.nodes found.entered) }
    ensures fits { question.now.options.now.cuts ≡ false → S.blind ≡ true → IfOk result (λ _.
        tree_size bridge child.now (question.now.moves - 1) ≤ question.now.options.now.nodes) }
    ensures spent { IsErrOf result SearchFault.Spent → question.now.options.now.nodes
        < tree_size bridge child.now (question.now.moves - 1) }
    ensures grown { S.grown store.old store.new }
{
    let alpha = Front::new(question.alloc, child.width());
    let mut budget = Budget::new(question.options.nodes);
    let found = search(
        question.alloc,
        store,
        solver,
        &mut budget,
        child,
        question.moves - 1,
        &alpha,
        rules_of(question.options),
    );
    match found {
        Ok(Found::Exact(front)) => Ok(WholeFront {
            front,
            entered: budget.entered(),
        }),
        Ok(Found::Below) => unreachable!(),
        Err(fault) => Err(fault),
    }
}

// The same, over the table if the searches look into it.
fn front_after(
    question: &Question,
    pass: &mut Pass,
    solver: &mut Solver,
    child: &Node,
) -> Result<WholeFront, SearchFault>
    requires question { IsQuestion question.now }
    requires pass { IsPassOf question.now.table.now pass.old }
    ensures front { IfOk result
        (λ found. IsFrontAt child.now (question.now.moves - 1) found.front) }
    ensures within { IfOk result (λ found.
        IsWithin question.now.options.now.nodes found.entered) }
    ensures fits { IsPlain question.now.options.now → IfOk result (λ _.
        tree_size bridge child.now (question.now.moves - 1) ≤ question.now.options.now.nodes) }
    ensures spent { IsErrOf result SearchFault.Spent → question.now.options.now.nodes
        < tree_size bridge child.now (question.now.moves - 1) }
    ensures pass { IsPassOf question.now.table.now pass.new }
{
    if question.options.table {
        let mut store = SharedStore::new(question.table, pass);
        whole_front(question, &mut store, solver, child)
    } else {
        whole_front(question, &mut NoStore, solver, child)
    }
}

// The greatest weight that is assured after a root card. `child` is the node after it. If a
// defender is to play there, what is assured after each of its cards is enough.
fn least_after(
    question: &Question,
    solver: &mut Solver,
    child: &Node,
) -> Result<LeastWeight, SearchFault>
    requires question { IsQuestion question.now }
    requires width { length question.now.weights.now ≡ length child.now.lefts }
    ensures least { IfOk result (λ found. IsLeastBy bridge is_sure_node
        (weight_of question.now.weights.now) child.now (question.now.moves - 1) found.weight) }
    ensures allowed { IfOk result (λ found.
        found.entered.nodes ≡ question.now.options.now.nodes) }
    ensures spent { IsErrOf result SearchFault.Spent → question.now.options.now.nodes
        < tree_size bridge child.now (question.now.moves - 1) }
{
    let _width = child.width();
    let alloc = question.alloc;
    let moves = question.moves - 1;
    let mut budget = Budget::new(question.options.nodes);
    if waits(child, moves) {
        let replies = assured_replies(alloc, solver, &mut budget, child, moves)?;
        let weight = heaviest(alloc, child, moves, question.weights, &replies)?;
        return Ok(LeastWeight {
            weight,
            entered: budget.entered(),
        });
    }
    let front = assured_front(alloc, solver, &mut budget, child, moves)?;
    match greatest_weight(&front, question.weights) {
        Some(weight) => Ok(LeastWeight {
            weight,
            entered: budget.entered(),
        }),
        None => unreachable!(),
    }
}

/// The two bounds after a root card. `child` is the node after it. Each search has a budget of its
/// own.
pub fn bounds_after(
    question: &Question,
    pass: &mut Pass,
    solver: &mut Solver,
    child: &Node,
) -> Result<Bounds, SearchFault>
    requires question { IsQuestion question.now }
    requires width { length question.now.weights.now ≡ length child.now.lefts }
    requires pass { IsPassOf question.now.table.now pass.old }
    ensures front { IfOk result
        (λ found. IsFrontAt child.now (question.now.moves - 1) found.front) }
    ensures least { IfOk result (λ found. IsLeastBy bridge is_sure_node
        (weight_of question.now.weights.now) child.now (question.now.moves - 1) found.least) }
    ensures within { IfOk result (λ found.
        IsWithin question.now.options.now.nodes found.entered) }
    ensures allowed { IfOk result (λ found.
        found.assured.nodes ≡ question.now.options.now.nodes) }
    ensures fits { IsPlain question.now.options.now → IfOk result (λ _.
        tree_size bridge child.now (question.now.moves - 1) ≤ question.now.options.now.nodes) }
    ensures spent { IsErrOf result SearchFault.Spent → question.now.options.now.nodes
        < tree_size bridge child.now (question.now.moves - 1) }
    ensures pass { IsPassOf question.now.table.now pass.new }
{
    let most = front_after(question, pass, solver, child)?;
    let least = least_after(question, solver, child)?;
    Ok(Bounds {
        front: most.front,
        least: least.weight,
        entered: most.entered,
        assured: least.entered,
    })
}
