//! The rows of all cards with a number of moves.
ghost use Rattle.std.specs.Prelude.{◌≡◌, ◌≤◌, ◌-◌, ℕ, true, IfOk, IfSome, IsErrOf, ◌&&◌, not};
ghost use Rattle.card_sets.specs.SetWords.{has_card};
ghost use Rattle.trick_rules.specs.Nodes.{choices, child};
ghost use Rattle.strategy_games.specs.Plans.{tree_size};
ghost use Rattle.strategy_tree.specs.Bridge.{bridge};
ghost use Rattle.strategy_tree.specs.RootTrees.{IsTooLarge, AllFit};
ghost use Rattle.fusion_base.specs.Sampling.{made_after, card_vectors};
ghost use Rattle.shared_table.specs.Passes.{IsPassOf};
ghost use Rattle.root_workers.specs.Plain.{IsPlain};
ghost use Rattle.root_workers.specs.Questions.{IsQuestion, NamesSpent, NamesFirstSpent};
ghost use Rattle.root_workers.specs.Leaders.{leader};
ghost use Rattle.card_brackets.specs.Rows.{IsRow, IsRoundWith, is_final};

use crate::bounds::bounds_after;
use crate::rows::{CardRow, row_of};
use crate::table::CardTable;
use alphamu_core::SearchFault;
use card_sets::Card;
use dd_solver::Solver;
use fusion_base::CardVector;
use root_workers::Question;
use shared_table::Pass;
use strategy_tree::RootFault;

// The row of a card, of which sampling believes this.
fn row_after(
    question: &Question,
    pass: &mut Pass,
    solver: &mut Solver,
    believed: &CardVector,
) -> Result<CardRow, RootFault>
    requires question { IsQuestion question.now }
    requires card { has_card (choices question.now.node.now) believed.now.card ≡ true }
    requires believed { believed.now.vector ≡ made_after question.now.node.now believed.now.card }
    requires pass { IsPassOf question.now.table.now pass.old }
    ensures row { IfOk result (IsRow question.now.node.now question.now.weights.now
        question.now.moves believed.now.card) }
    ensures spent { (card : ℕ) → IsErrOf result (RootFault.Spent card)
        → (card ≡ believed.now.card) × IsTooLarge question.now.node.now question.now.moves
        question.now.options.now.nodes believed.now.card }
    ensures fits { IsPlain question.now.options.now → IfOk result (λ _.
        tree_size bridge (child question.now.node.now believed.now.card) (question.now.moves - 1)
        ≤ question.now.options.now.nodes) }
    ensures pass { IsPassOf question.now.table.now pass.new }
{
    let card = believed.card;
    let (child, _) = question.node.child(question.alloc, card)?;
    match bounds_after(question, pass, solver, &child) {
        Ok(bounds) => Ok(row_of(question, believed, &bounds)),
        Err(SearchFault::Spent) => Err(RootFault::Spent(card)),
        Err(SearchFault::Memory) => Err(RootFault::Memory),
    }
}

// The card that leads, with one card more.
fn leader(best: Option<(Card, u32)>, card: Card, weight: u32) -> (Card, u32)
    ensures { result ≡ leader best card weight }
{
    match best {
        Some(best) if weight <= best.1 => best,
        _ => (card, weight),
    }
}

// Whether a row ends a round of which only a final table is wanted.
fn ends(only_final: bool, row: &CardRow) -> bool
    ensures { result ≡ (only_final && not (is_final row.now)) }
{
    only_final && !row.is_final()
}

/// The rows of all cards with the moves of the question, by what sampling believes of each, and the
/// card that is named. If only a final table is wanted, the first row that isn't final ends the
/// round, and there is none.
pub fn round_table(
    question: &Question,
    pass: &mut Pass,
    solver: &mut Solver,
    believed: &[CardVector],
    only_final: bool,
) -> Result<Option<CardTable>, RootFault>
    requires question { IsQuestion question.now }
    requires believed { believed.now ≡ card_vectors question.now.node.now }
    requires pass { IsPassOf question.now.table.now pass.old }
    ensures end { IfOk result (IsRoundWith question.now.node.now question.now.weights.now
        question.now.moves only_final) }
    ensures spent { NamesSpent question.now result }
    ensures first { NamesFirstSpent question.now result }
    ensures fits { IsPlain question.now.options.now → IfOk result (λ found. IfSome found (λ _.
        AllFit question.now.node.now question.now.moves question.now.options.now.nodes)) }
    ensures pass { IsPassOf question.now.table.now pass.new }
{
    let _width = question.node.width();
    let mut rows = Vec::new(question.alloc);
    let mut best = None;
    for entry in believed {
        let row = row_after(question, pass, solver, entry)?;
        if ends(only_final, &row) {
            return Ok(None);
        }
        best = Some(leader(best, row.card, row.most));
        rows.push(row)?;
    }
    match best {
        Some(best) => Ok(Some(CardTable {
            moves: question.moves,
            rows,
            named: best.0,
        })),
        None => unreachable!(),
    }
}
