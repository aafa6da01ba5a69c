//! The text of an answer that is one card.
ghost use Rattle.std.specs.Prelude.{◌≡◌, ◌++◌, IfOk, OnOk, sum};
ghost use Rattle.am_report.specs.Card.{card_text, named_text};

use crate::lines::push_line;
use crate::version::{Version, push_weight};
use byte_text::Text;
use card_letters::letters_of;
use card_sets::Card;
use std::alloc::{AllocError, Global};
use win_vectors::{Weights, WinVector};

// Appends `card`, the card, and the count or weight with its word.
#[tactic(auto, unfolding(crate::specs::Card::named_text))]
pub(crate) fn push_named(
    text: &mut Text,
    alloc: Global,
    version: Version,
    card: Card,
    weight: u32,
) -> Result<(), AllocError>
    ensures { OnOk result (text.new ≡ text.old ++ named_text version card weight) }
{
    text.push(b"card ")?;
    text.push(&letters_of(card))?;
    push_weight(text, alloc, version, weight)
}

// What all layouts weigh together.
fn weight_of_all(weights: &Weights) -> u32
    ensures { result ≡ sum weights.now }
{
    weights.total(WinVector::all(weights.width()))
}

/// The card to play, and in how many of the kept layouts it makes the contract. If some layout
/// doesn't weigh 1, the weight of those layouts and of all kept ones.
#[tactic(auto, unfolding(crate::specs::Card::card_text))]
pub fn card_text(
    alloc: Global,
    card: Card,
    weight: u32,
    weights: &Weights,
) -> Result<Text, AllocError>
    ensures { IfOk result (λ text. text ≡ card_text card weight weights.now) }
{
    let version = Version::of(weights);
    let mut text = Text::new(alloc);
    push_line(&mut text, b"alphamu card ", version.number())?;
    push_named(&mut text, alloc, version, card, weight)?;
    text.push(b" of ")?;
    text.push_number(alloc, u64::from(weight_of_all(weights)))?;
    text.push(b"\n")?;
    Ok(text)
}
