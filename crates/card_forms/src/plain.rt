//! The cards of a root as plain text.
ghost use Rattle.std.specs.Prelude.{◌≡◌, ◌++◌, IfOk, OnOk, flat_map};
ghost use Rattle.byte_text.specs.Lines.{line_of};
ghost use Rattle.card_forms.specs.Plain.{final_text, bounds_text, outcome_text, row_line};
ghost use Rattle.card_forms.specs.Plain.{cards_head, cards_text};

use crate::planned::{Planned, push_planned};
use crate::weight::weight_of_all;
use bit_letters::push_bits;
use byte_text::Text;
use card_brackets::CardRow;
use card_letters::letters_of;
use card_sets::Card;
use std::alloc::{AllocError, Global};
use text_forms::push_number;
use win_vectors::Weights;

// Appends whether a row is final.
fn push_final(text: &mut Text, is_final: bool) -> Result<(), AllocError>
    ensures { OnOk result (text.new ≡ text.old ++ final_text is_final) }
{
    if is_final {
        text.push(b" final yes")
    } else {
        text.push(b" final no")
    }
}

// Appends the bounds of a row, and what sampling believes.
#[tactic(auto, unfolding(crate::specs::Plain::bounds_text))]
fn push_bounds(text: &mut Text, alloc: Global, row: &CardRow) -> Result<(), AllocError>
    ensures { OnOk result (text.new ≡ text.old ++ bounds_text row.now) }
{
    push_number(text, alloc, b" most ", u64::from(row.most))?;
    push_number(text, alloc, b" least ", u64::from(row.least))?;
    push_number(text, alloc, b" sampled ", u64::from(row.sampled))
}

// Appends whether a row is final, and its vector.
#[tactic(auto, unfolding(crate::specs::Plain::outcome_text))]
fn push_outcome(text: &mut Text, row: &CardRow) -> Result<(), AllocError>
    ensures { OnOk result (text.new ≡ text.old ++ outcome_text row.now) }
{
    push_final(text, row.is_final())?;
    text.push(b" vector ")?;
    push_bits(text, row.vector)
}

// Appends the line of a row.
#[tactic(auto, unfolding(crate::specs::Plain::row_line))]
fn push_row(text: &mut Text, alloc: Global, row: &CardRow) -> Result<(), AllocError>
    ensures { OnOk result (text.new ≡ text.old ++ row_line row.now) }
{
    text.push(b"card ")?;
    text.push(&letters_of(row.card))?;
    push_bounds(text, alloc, row)?;
    push_outcome(text, row)?;
    text.push(b"\n")
}

// Appends the lines of all rows.
fn push_rows(text: &mut Text, alloc: Global, rows: &Vec<CardRow>) -> Result<(), AllocError>
    ensures { OnOk result (text.new ≡ text.old ++ flat_map row_line rows.now.items) }
{
    for row in rows {
        push_row(text, alloc, row)?;
    }
    Ok(())
}

// What stands before the rows.
#[tactic(auto, unfolding(crate::specs::Plain::cards_head))]
fn cards_head(alloc: Global, weights: &Weights, planned: Planned) -> Result<Text, AllocError>
    ensures { IfOk result (λ text. text ≡ cards_head weights.now planned) }
{
    let mut text = Text::new(alloc);
    text.push(b"alphamu cards 1\n")?;
    text.push(b"moves ")?;
    push_planned(&mut text, alloc, planned)?;
    push_number(&mut text, alloc, b"\nlayouts ", u64::from(weights.width()))?;
    push_number(
        &mut text,
        alloc,
        b" weight ",
        u64::from(weight_of_all(weights)),
    )?;
    text.push(b"\n")?;
    Ok(text)
}

/// A line for each row with the bounds of its card, what sampling believes and whether it is final,
/// and the card that is named. Before them stand the number of moves, and how many layouts there
/// are with their weight.
#[tactic(auto, unfolding(crate::specs::Plain::cards_text))]
pub fn cards_text(
    alloc: Global,
    weights: &Weights,
    planned: Planned,
    rows: &Vec<CardRow>,
    named: Card,
) -> Result<Text, AllocError>
    ensures { IfOk result (λ text. text ≡ cards_text weights.now planned rows.now.items named) }
{
    let mut text = cards_head(alloc, weights, planned)?;
    push_rows(&mut text, alloc, rows)?;
    text.push(b"named ")?;
    text.push(&letters_of(named))?;
    text.push(b"\n")?;
    Ok(text)
}
