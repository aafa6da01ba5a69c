//! The facts of a decision, by the rows of the card played and of the card named.
ghost use Rattle.std.specs.Prelude.{◌≡◌, ◌<◌, ℕ, true, length, IfOk, IsErrOf};
ghost use Rattle.shared_table.specs.Passes.{IsPassOf};
ghost use Rattle.root_workers.specs.Questions.{IsQuestion};
ghost use Rattle.card_sets.specs.SetWords.{has_card};
ghost use Rattle.trick_rules.specs.Nodes.{choices};
ghost use Rattle.card_brackets.specs.Rows.{IsSpentUpTo};
ghost use Rattle.card_brackets.specs.declared.rows.CardRow.{CardRow};
ghost use Rattle.job_review.specs.Reviews.{IsRowOf, IsToldOf, greatest_sure};

use board_decisions::{Decision, trick_of};
use card_brackets::{CardRow, CardTable, card_table};
use card_forms::weight_of_all;
use card_sets::Card;
use pbn_deal::Board;
use review_text::Reviewed;
use root_workers::Question;
use shared_table::Pass;
use strategy_tree::RootFault;

// The row of a card in a table that has one.
fn row_of(table: &CardTable, card: Card) -> CardRow
    requires { (row : CardRow) × IsRowOf table.now card row }
    ensures { IsRowOf table.now card result }
{
    for row in &table.rows {
        if row.card == card {
            return *row;
        }
    }
    unreachable!()
}

// The greatest weight that some card of a table is sure to win.
fn greatest_sure(rows: &[CardRow]) -> u32
    ensures { result ≡ greatest_sure rows.now }
{
    let mut greatest = 0;
    for row in rows {
        greatest = row.least.max(greatest);
    }
    greatest
}

/// The facts of a decision of a board. The question is about its node and its weights.
pub fn told_of(
    question: &Question,
    pass: &mut Pass,
    board: &Board,
    decision: &Decision,
) -> Result<Reviewed, RootFault>
    requires question { IsQuestion question.now }
    requires node { question.now.node.now ≡ decision.now.kept.node }
    requires weights { question.now.weights.now ≡ decision.now.kept.weights }
    requires legal { has_card (choices question.now.node.now) decision.now.played.card ≡ true }
    requires played { decision.now.place < length board.now.plays }
    requires pass { IsPassOf question.now.table.now pass.old }
    ensures told { IfOk result (IsToldOf board.now question.now.moves decision.now) }
    ensures spent { (card : ℕ) → IsErrOf result (RootFault.Spent card)
        → IsSpentUpTo question.now.node.now question.now.weights.now question.now.moves
        question.now.options.now.nodes card }
    ensures pass { IsPassOf question.now.table.now pass.new }
{
    let _plays = board.plays();
    let table = card_table(question, pass)?;
    let row = row_of(&table, decision.played.card);
    let named = row_of(&table, table.named);
    Ok(Reviewed {
        number: decision.place + 1,
        trick: trick_of(decision.place),
        seat: board.compass(decision.played.seat),
        played: decision.played.card,
        most: row.most,
        least: row.least,
        named: table.named,
        named_most: named.most,
        named_least: named.least,
        sure: greatest_sure(&table.rows),
        layouts: question.weights.width(),
        weight: weight_of_all(question.weights),
    })
}
