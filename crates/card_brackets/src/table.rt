//! The rows of all cards, with as many moves as make each of them final.
ghost use Rattle.std.specs.Prelude.{◌≡◌, ◌<◌, ◌≤◌, ℕ, IfOk, IfSome, IsErrOf};
ghost use Rattle.strategy_tree.specs.RootTrees.{IsSpentAt, IsFirstSpentAt, AllFit};
ghost use Rattle.fusion_base.specs.Sampling.{card_vectors};
ghost use Rattle.shared_table.specs.Passes.{IsPassOf};
ghost use Rattle.root_workers.specs.Plain.{IsPlain};
ghost use Rattle.root_workers.specs.Questions.{IsQuestion};
ghost use Rattle.card_brackets.specs.Rows.{IsRoundWith, IsTableUpTo, IsSpentUpTo, IsFirstSpentUpTo};

use crate::rounds::round_table;
use crate::rows::CardRow;
use card_sets::Card;
use dd_solver::Solver;
use fusion_base::{CardVector, per_card_alone};
use root_workers::Question;
use shared_table::Pass;
use strategy_tree::RootFault;

/// The rows of all legal cards, in card order, with a number of moves that counts the card itself;
/// and the card that is named with as many moves.
#[derive(Drop)]
pub struct CardTable {
    pub moves: u8,
    pub rows: Vec<CardRow>,
    pub named: Card,
}

// The rows with this many of the moves that are asked for. If only a final table is wanted, there
// may be none.
fn table_with(
    question: &Question,
    pass: &mut Pass,
    solver: &mut Solver,
    believed: &[CardVector],
    moves: u8,
    only_final: bool,
) -> Result<Option<CardTable>, RootFault>
    requires question { IsQuestion question.now }
    requires some { 1 ≤ moves }
    requires few { moves ≤ question.now.moves }
    requires believed { believed.now ≡ card_vectors question.now.node.now }
    requires pass { IsPassOf question.now.table.now pass.old }
    ensures end { IfOk result (IsRoundWith question.now.node.now question.now.weights.now
        moves only_final) }
    ensures spent { (card : ℕ) → IsErrOf result (RootFault.Spent card)
        → IsSpentAt question.now.node.now moves question.now.options.now.nodes card }
    ensures first { IsPlain question.now.options.now → (card : ℕ)
        → IsErrOf result (RootFault.Spent card)
        → IsFirstSpentAt question.now.node.now moves question.now.options.now.nodes card }
    ensures fits { IsPlain question.now.options.now → IfOk result (λ found. IfSome found (λ _.
        AllFit question.now.node.now moves question.now.options.now.nodes)) }
    ensures pass { IsPassOf question.now.table.now pass.new }
{
    let round = Question {
        alloc: question.alloc,
        node: question.node,
        moves,
        weights: question.weights,
        options: question.options,
        table: question.table,
    };
    round_table(&round, pass, solver, believed, only_final)
}

/// The rows of all legal cards of a root, with the least number of moves, up to that of the
/// question, with which each row is final; or else with the moves of the question. The table and
/// the cuts change nothing of them, and one worker finds them.
///
/// Errors: `Spent` at a root card whose tree, with a number of moves that would have been told, has
/// more nodes than a search may enter, without the table and the cuts at the first such card, and
/// then always if there is one; `Memory`.
pub fn card_table(question: &Question, pass: &mut Pass) -> Result<CardTable, RootFault>
    requires question { IsQuestion question.now }
    requires pass { IsPassOf question.now.table.now pass.old }
    ensures table { IfOk result (IsTableUpTo question.now.node.now question.now.weights.now
        question.now.moves) }
    ensures spent { (card : ℕ) → IsErrOf result (RootFault.Spent card)
        → IsSpentUpTo question.now.node.now question.now.weights.now question.now.moves
        question.now.options.now.nodes card }
    ensures first { IsPlain question.now.options.now → (card : ℕ)
        → IsErrOf result (RootFault.Spent card)
        → IsFirstSpentUpTo question.now.node.now question.now.weights.now question.now.moves
        question.now.options.now.nodes card }
    ensures fits { IsPlain question.now.options.now → IfOk result (λ table.
        AllFit question.now.node.now table.moves question.now.options.now.nodes) }
    ensures pass { IsPassOf question.now.table.now pass.new }
{
    let believed = per_card_alone(question.alloc, question.node)?;
    let mut solver = Solver::new(question.alloc);
    for moves in 1..question.moves {
        let found = table_with(question, pass, &mut solver, &believed, moves, true)?;
        if let Some(table) = found {
            return Ok(table);
        }
    }
    let last = table_with(
        question,
        pass,
        &mut solver,
        &believed,
        question.moves,
        false,
    )?;
    match last {
        Some(table) => Ok(table),
        None => unreachable!(),
    }
}
