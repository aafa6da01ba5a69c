//! The text of plain sampling: each card with its vector, and the card that is named.
ghost use Rattle.std.specs.Prelude.{◌≡◌, ◌++◌, IfOk, OnOk, flat_map, length, All};
ghost use Rattle.am_report.specs.Fusion.{judged_line, greatest_of, first_best};
ghost use Rattle.am_report.specs.Fusion.{named_line, fusion_text};

use crate::lines::push_line;
use crate::solve::push_vector_line;
use crate::version::Version;
use byte_text::Text;
use card_letters::letters_of;
use fusion_base::CardVector;
use std::alloc::{AllocError, Global};
use win_vectors::Weights;

#[tactic(auto, unfolding(crate::specs::Fusion::judged_line))]
fn push_judged_line(
    text: &mut Text,
    alloc: Global,
    weights: &Weights,
    entry: &CardVector,
) -> Result<(), AllocError>
    requires { length weights.now ≡ length entry.now.vector }
    ensures { OnOk result (text.new ≡ text.old ++ judged_line weights.now entry.now) }
{
    text.push(b"card ")?;
    text.push(&letters_of(entry.card))?;
    text.push(b" ")?;
    push_vector_line(text, alloc, weights, entry.vector)
}

// The greatest weight of a card's vector.
fn greatest_of(weights: &Weights, table: &[CardVector]) -> u32
    requires { All (λ entry. length weights.now ≡ length entry.vector) table.now }
    ensures { result ≡ greatest_of weights.now table.now }
{
    let mut greatest = 0;
    for entry in table {
        greatest = greatest.max(weights.total(entry.vector));
    }
    greatest
}

// The first entry of the greatest weight.
fn first_best(weights: &Weights, table: &[CardVector]) -> Option<CardVector>
    requires { All (λ entry. length weights.now ≡ length entry.vector) table.now }
    ensures { result ≡ first_best weights.now table.now }
{
    let greatest = greatest_of(weights, table);
    for entry in table {
        if weights.total(entry.vector) == greatest {
            return Some(*entry);
        }
    }
    None
}

fn push_named_line(text: &mut Text, named: Option<CardVector>) -> Result<(), AllocError>
    ensures { OnOk result (text.new ≡ text.old ++ named_line named) }
{
    match named {
        Some(entry) => push_line(text, b"named ", &letters_of(entry.card)),
        None => Ok(()),
    }
}

/// A line for each card with its vector and the weight of this, in the table's order; and the first
/// card of the greatest weight, which a table that is empty doesn't have. If each layout weighs 1,
/// the weight is a count of layouts.
#[tactic(auto, unfolding(crate::specs::Fusion::fusion_text))]
pub fn fusion_text(
    alloc: Global,
    table: &[CardVector],
    weights: &Weights,
) -> Result<Text, AllocError>
    requires { All (λ entry. length weights.now ≡ length entry.vector) table.now }
    ensures { IfOk result (λ text. text ≡ fusion_text table.now weights.now) }
{
    let mut text = Text::new(alloc);
    push_line(&mut text, b"alphamu fusion ", Version::of(weights).number())?;
    for entry in table {
        push_judged_line(&mut text, alloc, weights, entry)?;
    }
    push_named_line(&mut text, first_best(weights, table))?;
    Ok(text)
}
