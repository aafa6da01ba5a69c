//! The cards of a root as an object of JSON.
ghost use Rattle.std.specs.Prelude.{◌≡◌, IfOk, map, string_bytes};
ghost use Rattle.serde_json.specs.View.{view};
ghost use Rattle.bit_letters.specs.Bits.{bit_letter};
ghost use Rattle.card_forms.specs.Objects.{card_data, cards_data, cards_json};

use crate::equals::{equal_names, others_in_play};
use crate::planned::{Planned, planned_value};
use crate::weight::weight_of_all;
use bit_letters::push_bits;
use byte_text::Text;
use card_brackets::CardRow;
use card_sets::{Card, CardSet};
use serde_json::{Value, json};
use std::alloc::{AllocError, Global};
use text_forms::{card_string, json_line};
use trick_rules::Node;
use win_vectors::{Weights, WinVector};

// The bits of a vector as a string.
fn vector_string(alloc: Global, vector: WinVector) -> Result<String, AllocError>
    ensures { IfOk result (λ string. string_bytes string ≡ map bit_letter vector) }
{
    let mut bits = Text::new(alloc);
    push_bits(&mut bits, vector)?;
    String::from_utf8_lossy(alloc, bits.bytes())
}

// What is known of a card, with the cards that are equal to it.
#[tactic(auto, unfolding(crate::specs::Objects::card_data))]
fn card_value(
    alloc: Global,
    others: CardSet,
    rows: &Vec<CardRow>,
    row: &CardRow,
) -> Result<Value, AllocError>
    ensures { IfOk result (λ value. view value ≡ card_data others rows.now.items row.now) }
{
    let card = card_string(alloc, row.card)?;
    let equals = equal_names(alloc, others, rows, row.card)?;
    let vector = vector_string(alloc, row.vector)?;
    json!(in alloc; {
        "card": card,
        "equals": equals,
        "final": row.is_final(),
        "least": row.least,
        "most": row.most,
        "sampled": row.sampled,
        "vector": vector,
    })
}

// What is known of each card.
fn card_values(
    alloc: Global,
    others: CardSet,
    rows: &Vec<CardRow>,
) -> Result<Vec<Value>, AllocError>
    ensures { IfOk result (λ values.
        map view values.items ≡ map (card_data others rows.now.items) rows.now.items) }
{
    let mut values = Vec::new(alloc);
    for row in rows {
        values.push(card_value(alloc, others, rows, row)?)?;
    }
    Ok(values)
}

// All that is told as a value.
#[tactic(auto, unfolding(crate::specs::Objects::cards_data))]
fn cards_value(
    alloc: Global,
    node: &Node,
    weights: &Weights,
    planned: Planned,
    rows: &Vec<CardRow>,
    named: Card,
) -> Result<Value, AllocError>
    ensures { IfOk result
        (λ value. view value ≡ cards_data node.now weights.now planned rows.now.items named) }
{
    let cards = card_values(alloc, others_in_play(node), rows)?;
    let moves = planned_value(alloc, planned)?;
    let named = card_string(alloc, named)?;
    json!(in alloc; {
        "cards": cards,
        "layouts": weights.width(),
        "moves": moves,
        "named": named,
        "weight": weight_of_all(weights),
    })
}

/// One object with a list of the cards, how many layouts there are with their weight, the number of
/// moves, and the card that is named. The members of each object are in the order of their keys.
/// No blanks stand between them, and a line feed at the end.
///
/// Errors: an allocation fails.
pub fn cards_json(
    alloc: Global,
    node: &Node,
    weights: &Weights,
    planned: Planned,
    rows: &Vec<CardRow>,
    named: Card,
) -> Result<Text, AllocError>
    ensures { IfOk result (λ text. text ≡ cards_json node.now weights.now planned rows.now.items named) }
{
    json_line(
        alloc,
        &cards_value(alloc, node, weights, planned, rows, named)?,
    )
}
