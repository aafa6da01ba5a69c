//! The forms in which the cards of a root are told.
ghost use Rattle.std.specs.Prelude.{◌≡◌, IfOk};
ghost use Rattle.card_brackets.specs.Rows.{are_final};
ghost use Rattle.card_forms.specs.Forms.{rows_in, cards_in, exact_in};

use crate::objects::cards_json;
use crate::plain::cards_text;
use crate::planned::Planned;
use crate::records::cards_csv;
use byte_text::Text;
use card_brackets::{CardRow, CardTable};
use card_sets::Card;
use exact_cards::ExactTable;
use std::alloc::{AllocError, Global};
use text_forms::Form;
use trick_rules::Node;
use win_vectors::Weights;

// Rows of a node and the named card, in a form.
fn rows_in(
    alloc: Global,
    form: Form,
    node: &Node,
    weights: &Weights,
    planned: Planned,
    rows: &Vec<CardRow>,
    named: Card,
) -> Result<Text, AllocError>
    ensures { IfOk result
        (λ text. text ≡ rows_in form node.now weights.now planned rows.now.items named) }
{
    match form {
        Form::Text => cards_text(alloc, weights, planned, rows, named),
        Form::Csv => cards_csv(alloc, weights, planned, rows, named),
        Form::Json => cards_json(alloc, node, weights, planned, rows, named),
    }
}

// Whether every row is final.
fn are_final(rows: &Vec<CardRow>) -> bool
    ensures { result ≡ are_final rows.now.items }
{
    rows.iter().all(|row: &CardRow| row.is_final())
}

/// The cards of a root side by side, in a form. The node is the root's, and the weights are those of
/// its layouts.
///
/// Errors: an allocation fails.
pub fn cards_in(
    alloc: Global,
    form: Form,
    node: &Node,
    weights: &Weights,
    table: &CardTable,
) -> Result<Text, AllocError>
    ensures { IfOk result (λ text. text ≡ cards_in form node.now weights.now table.now) }
{
    let planned = Planned::Moves(table.moves);
    rows_in(
        alloc,
        form,
        node,
        weights,
        planned,
        &table.rows,
        table.named,
    )
}

/// The same with all moves planned. In the text for people the last line says that nodes are spent,
/// if some row isn't final.
///
/// Errors: an allocation fails.
pub fn exact_in(
    alloc: Global,
    form: Form,
    node: &Node,
    weights: &Weights,
    table: &ExactTable,
) -> Result<Text, AllocError>
    ensures { IfOk result (λ text. text ≡ exact_in form node.now weights.now table.now) }
{
    let rows = &table.rows;
    let mut text = rows_in(alloc, form, node, weights, Planned::All, rows, table.named)?;
    if form == Form::Text && !are_final(rows) {
        text.push(b"nodes spent\n")?;
    }
    Ok(text)
}
