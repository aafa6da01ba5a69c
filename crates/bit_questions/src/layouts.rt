//! The layouts of a position by Left's hands, and their weights.
ghost use Rattle.std.specs.Prelude.{◌≡◌, ◌≤◌, All, IfOk, IfErr, MatchOption, length, map};
ghost use Rattle.win_vectors.specs.Vectors.{most_layouts};
ghost use Rattle.trick_rules.specs.Positions.{FitsLeft, IsSound};
ghost use Rattle.bit_questions.specs.Numbers.{cards_at};
ghost use Rattle.bit_questions.specs.Causes.{IsLayoutFault, IsLeftWord, IsWeightFault};

use crate::cards::cards_at;
use crate::fault::QuestionFault;
use card_sets::CardSet;
use std::alloc::{AllocError, Global};
use trick_rules::{Node, Position};
use win_vectors::{MAX_WEIGHT, MOST_LAYOUTS, Weights};

// The Left hand of a word, if it fits.
fn left_at(position: &Position, bits: u64) -> Option<CardSet>
    ensures { MatchOption result (IsLeftWord bits position.now → ⊥)
        (λ left. (left ≡ cards_at bits) × FitsLeft position.now left) }
{
    let left = cards_at(bits);
    if bits >> 52u32 == 0 && position.fits(left) {
        Some(left)
    } else {
        None
    }
}

// The Left hands of words, in order.
fn lefts_at(
    alloc: Global,
    position: &Position,
    lefts: &[u64],
) -> Result<Vec<CardSet>, QuestionFault>
    requires { length lefts.now ≤ most_layouts }
    ensures lefts { IfOk result (λ all. all.items ≡ map cards_at lefts.now) }
    ensures fit { IfOk result (λ all. All (FitsLeft position.now) all.items) }
    ensures refused { IfErr result (IsLayoutFault position.now lefts.now) }
{
    let mut all = Vec::new(alloc);
    for (place, bits) in lefts.iter().enumerate() {
        let Some(left) = left_at(position, *bits) else {
            return Err(QuestionFault::Layout(place as u16));
        };
        all.push(left).map_err(AllocError::from)?;
    }
    Ok(all)
}

/// The node of a position and of layouts by words of Left's hands, in order.
pub fn node_at(alloc: Global, position: Position, lefts: &[u64]) -> Result<Node, QuestionFault>
    requires { IsSound position }
    ensures position { IfOk result (λ node. node.position ≡ position) }
    ensures lefts { IfOk result (λ node. node.lefts ≡ map cards_at lefts.now) }
    ensures refused { IfErr result (IsLayoutFault position lefts.now) }
{
    if lefts.is_empty() {
        return Err(QuestionFault::NoLayouts);
    }
    if lefts.len() > MOST_LAYOUTS {
        return Err(QuestionFault::TooManyLayouts);
    }
    let all = lefts_at(alloc, &position, lefts)?;
    Ok(Node::new(alloc, position, &all)?)
}

/// The weights of this many layouts, in order.
pub fn weights_at(width: u16, weights: &[u32]) -> Result<Weights, QuestionFault>
    requires low { 1 ≤ width }
    requires high { width ≤ most_layouts }
    ensures value { IfOk result (λ all. all ≡ weights.now) }
    ensures count { IfOk result (λ all. length all ≡ width) }
    ensures refused { IfErr result (IsWeightFault width weights.now) }
{
    if weights.len() != usize::from(width) {
        return Err(QuestionFault::WeightCount);
    }
    let mut all = Weights::equal(width);
    for (place, weight) in weights.iter().enumerate() {
        if *weight == 0 || *weight > MAX_WEIGHT {
            return Err(QuestionFault::Weight(place as u16));
        }
        all = all.set(place as u16, *weight);
    }
    Ok(all)
}
