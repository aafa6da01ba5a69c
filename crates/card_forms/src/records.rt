//! The cards of a root as records of CSV.
ghost use Rattle.std.specs.Prelude.{◌≡◌, ◌++◌, IfOk, OnOk};
ghost use Rattle.text_forms.specs.Records.{record_text};
ghost use Rattle.card_forms.specs.Records.{cards_csv, known_fields, shared_fields, row_fields, yes_no};

use crate::planned::{Planned, push_planned};
use crate::weight::weight_of_all;
use bit_letters::push_bits;
use byte_text::Text;
use card_brackets::CardRow;
use card_letters::letters_of;
use card_sets::Card;
use std::alloc::{AllocError, Global};
use text_forms::{Record, push_fields};
use win_vectors::Weights;

fn yes_no(answer: bool) -> &'static [u8]
    ensures { result.now ≡ yes_no answer }
{
    if answer { b"yes" } else { b"no" }
}

// Adds what is known of a card.
#[tactic(auto, unfolding(crate::specs::Records::known_fields))]
fn push_known(fields: &mut Record, alloc: Global, row: &CardRow) -> Result<(), AllocError>
    ensures { OnOk result (fields.new ≡ fields.old ++ known_fields row.now) }
{
    let mut vector = Text::new(alloc);
    push_bits(&mut vector, row.vector)?;
    fields.push(&letters_of(row.card))?;
    fields.push_number(u64::from(row.most))?;
    fields.push_number(u64::from(row.least))?;
    fields.push_number(u64::from(row.sampled))?;
    fields.push(yes_no(row.is_final()))?;
    fields.push(vector.bytes())
}

// Adds what is the same in each record.
#[tactic(auto, unfolding(crate::specs::Records::shared_fields))]
fn push_shared(
    fields: &mut Record,
    alloc: Global,
    weights: &Weights,
    planned: Planned,
) -> Result<(), AllocError>
    ensures { OnOk result (fields.new ≡ fields.old ++ shared_fields weights.now planned) }
{
    let mut moves = Text::new(alloc);
    push_planned(&mut moves, alloc, planned)?;
    fields.push(moves.bytes())?;
    fields.push_number(u64::from(weights.width()))?;
    fields.push_number(u64::from(weight_of_all(weights)))
}

// Appends the record of a row.
#[tactic(auto, unfolding(crate::specs::Records::row_fields))]
fn push_row(
    text: &mut Text,
    alloc: Global,
    weights: &Weights,
    planned: Planned,
    named: Card,
    row: &CardRow,
) -> Result<(), AllocError>
    ensures { OnOk result
        (text.new ≡ text.old ++ record_text (row_fields weights.now planned named row.now)) }
{
    let mut fields = Record::new(alloc);
    push_known(&mut fields, alloc, row)?;
    fields.push(yes_no(row.card == named))?;
    push_shared(&mut fields, alloc, weights, planned)?;
    fields.write_to(text)
}

/// A record with the names of the fields, and then one for each row: the card, its bounds, what
/// sampling believes, whether the row is final, the vector, whether the card is the named one, and
/// what is the same in each record: the number of moves, and how many layouts there are with their
/// weight.
///
/// Errors: an allocation fails.
#[tactic(auto, unfolding(crate::specs::Records::cards_csv))]
pub fn cards_csv(
    alloc: Global,
    weights: &Weights,
    planned: Planned,
    rows: &Vec<CardRow>,
    named: Card,
) -> Result<Text, AllocError>
    ensures { IfOk result (λ text. text ≡ cards_csv weights.now planned rows.now.items named) }
{
    let mut text = Text::new(alloc);
    push_fields(
        &mut text,
        alloc,
        &[
            b"card", b"most", b"least", b"sampled", b"final", b"vector", b"named", b"moves",
            b"layouts", b"weight",
        ],
    )?;
    for row in rows {
        push_row(&mut text, alloc, weights, planned, named, row)?;
    }
    Ok(text)
}
