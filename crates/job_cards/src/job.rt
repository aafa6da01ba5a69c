//! What is known of each card of a root, as a table and as a text.
ghost use Rattle.std.specs.Prelude.{◌≡◌, true, IfOk, IfErr, IsOkUnless, length};
ghost use Rattle.job_words.specs.Asks.{IsMoves, IsSearchWithinLimits};
ghost use Rattle.am_answer.specs.Answers.{has_choice};
ghost use Rattle.card_brackets.specs.Rows.{IsTableUpTo};
ghost use Rattle.job_cards.specs.Cards.{IsCardsText, IsCardsRefusal, IsExactText, IsPlannedTable};

use am_answer::{Root, Status};
use byte_text::Text;
use card_brackets::{CardTable, card_table};
use card_forms::{cards_in, exact_in};
use exact_cards::exact_table;
use job_words::Search;
use root_answers::{options_of, table_of};
use root_workers::Question;
use std::alloc::Global;
use text_forms::Form;

/// Every legal card of a root with the bounds of the weight that it wins, for at most `moves` moves
/// of declarer's side: the least number of moves with which each card is final, or else that one.
/// One worker does all the work. Errors: `Spent` at a root card whose tree, with a number of moves
/// that would have been told, has more nodes than a search may enter; `Memory`.
pub fn cards_of(alloc: Global, root: &Root, moves: u8, search: &Search) -> Result<CardTable, Status>
    requires turn { has_choice root.now.kept.node ≡ true }
    requires weighed { length root.now.kept.weights ≡ length root.now.kept.node.lefts }
    requires moves { IsMoves moves }
    requires limits { IsSearchWithinLimits search.now }
    ensures table { IfOk result
        (IsTableUpTo root.now.kept.node root.now.kept.weights moves) }
    ensures refused { IfErr result (IsCardsRefusal root.now moves search.now) }
{
    let options = options_of(search);
    let (table, mut pass) = table_of(alloc, search)?;
    let question = Question {
        alloc,
        node: &root.kept.node,
        moves,
        weights: &root.kept.weights,
        options: &options,
        table: &table,
    };
    let found = card_table(&question, &mut pass)?;
    Ok(found)
}

/// The same, written in the form. Errors: those of `cards_of`.
pub fn tell_cards(
    alloc: Global,
    root: &Root,
    moves: u8,
    search: &Search,
    form: Form,
) -> Result<Text, Status>
    requires turn { has_choice root.now.kept.node ≡ true }
    requires weighed { length root.now.kept.weights ≡ length root.now.kept.node.lefts }
    requires moves { IsMoves moves }
    requires limits { IsSearchWithinLimits search.now }
    ensures text { IfOk result (IsCardsText root.now moves form) }
    ensures refused { IfErr result (IsCardsRefusal root.now moves search.now) }
{
    let found = cards_of(alloc, root, moves, search)?;
    Ok(cards_in(alloc, form, &root.kept.node, &root.kept.weights, &found)?)
}

/// Every legal card of a root with what one strategy can win after it, all of these moves planned,
/// as a table. Declarer's side has no more cards left than moves. The search of each card may enter
/// `nodes` nodes; if it is cut off, its bounds enclose that. Errors: `Memory`.
pub fn exact_cards_of(
    alloc: Global,
    root: &Root,
    moves: u8,
    nodes: u64,
) -> Result<CardTable, Status>
    requires turn { has_choice root.now.kept.node ≡ true }
    requires weighed { length root.now.kept.weights ≡ length root.now.kept.node.lefts }
    ensures table { IfOk result (IsPlannedTable root.now nodes moves) }
    ensures refused { IfErr result (λ status. status ≡ Status.Memory) }
{
    let found = exact_table(alloc, &root.kept.node, &root.kept.weights, nodes)?;
    Ok(CardTable {
        moves,
        rows: found.rows,
        named: found.named,
    })
}

/// Every legal card of a root with what one strategy can win after it, all moves planned, written in
/// the form. The search of each card may enter `nodes` nodes; if it is cut off, its bounds enclose
/// that. One worker does all the work. Errors: `Memory`.
pub fn tell_exact(alloc: Global, root: &Root, nodes: u64, form: Form) -> Result<Text, Status>
    requires turn { has_choice root.now.kept.node ≡ true }
    requires weighed { length root.now.kept.weights ≡ length root.now.kept.node.lefts }
    ensures text { IfOk result (IsExactText root.now nodes form) }
    ensures refused { IsOkUnless result Status.Memory }
{
    let found = exact_table(alloc, &root.kept.node, &root.kept.weights, nodes)?;
    Ok(exact_in(alloc, form, &root.kept.node, &root.kept.weights, &found)?)
}
