//! The lines of a review.
ghost use Rattle.std.specs.Prelude.{◌≡◌, ◌++◌, IfOk, OnOk, flat_map};
ghost use Rattle.review_text.specs.Texts.{costly_among, greatest_cost, turn_text, cards_text};
ghost use Rattle.review_text.specs.Texts.{greatest_up_to, maybe_costly_among};
ghost use Rattle.review_text.specs.Texts.{cost_text, decision_line, last_line, decisions_text, head_text, review_text};

use crate::reviewed::Reviewed;
use byte_text::Text;
use card_letters::{compass_letter, letters_of};
use std::alloc::{AllocError, Global};
use text_forms::push_number;

// Appends which card it was, and who played it.
#[tactic(auto, unfolding(crate::specs::Texts::turn_text))]
fn push_turn(text: &mut Text, alloc: Global, told: &Reviewed) -> Result<(), AllocError>
    ensures { OnOk result (text.new ≡ text.old ++ turn_text told.now) }
{
    push_number(text, alloc, b"card ", u64::from(told.number))?;
    push_number(text, alloc, b" trick ", u64::from(told.trick))?;
    text.push(b" seat ")?;
    text.push(&[compass_letter(told.seat)])
}

// Appends the card played and the card named.
#[tactic(auto, unfolding(crate::specs::Texts::cards_text))]
fn push_cards(text: &mut Text, alloc: Global, told: &Reviewed) -> Result<(), AllocError>
    ensures { OnOk result (text.new ≡ text.old ++ cards_text told.now) }
{
    text.push(b" played ")?;
    text.push(&letters_of(told.played))?;
    push_number(text, alloc, b" most ", u64::from(told.most))?;
    push_number(text, alloc, b" least ", u64::from(told.least))?;
    text.push(b" named ")?;
    text.push(&letters_of(told.named))?;
    push_number(text, alloc, b" most ", u64::from(told.named_most))?;
    push_number(text, alloc, b" least ", u64::from(told.named_least))
}

// Appends the layouts, and what the card cost, at least and at most.
#[tactic(auto, unfolding(crate::specs::Texts::cost_text))]
fn push_cost(text: &mut Text, alloc: Global, told: &Reviewed) -> Result<(), AllocError>
    ensures { OnOk result (text.new ≡ text.old ++ cost_text told.now) }
{
    push_number(text, alloc, b" layouts ", u64::from(told.layouts))?;
    push_number(text, alloc, b" weight ", u64::from(told.weight))?;
    push_number(text, alloc, b" cost ", u64::from(told.cost()))?;
    push_number(text, alloc, b" to ", u64::from(told.cost_up_to()))?;
    text.push(b" final ")?;
    text.push(told.final_word())
}

// Appends the line of a decision.
#[tactic(auto, unfolding(crate::specs::Texts::decision_line))]
fn push_decision(text: &mut Text, alloc: Global, told: &Reviewed) -> Result<(), AllocError>
    ensures { OnOk result (text.new ≡ text.old ++ decision_line told.now) }
{
    push_turn(text, alloc, told)?;
    push_cards(text, alloc, told)?;
    push_cost(text, alloc, told)?;
    text.push(b"\n")
}

// Appends a line for each decision.
fn push_lines(text: &mut Text, alloc: Global, told: &[Reviewed]) -> Result<(), AllocError>
    ensures { OnOk result (text.new ≡ text.old ++ flat_map decision_line told.now) }
{
    for decision in told {
        push_decision(text, alloc, decision)?;
    }
    Ok(())
}

/// How many decisions may have cost something.
pub fn maybe_costly_among(told: &[Reviewed]) -> usize
    ensures { result ≡ maybe_costly_among told.now }
{
    told.iter()
        .filter(|decision| decision.cost_up_to() > 0)
        .count()
}

/// The greatest cost that a decision may have; 0 if there is none.
pub fn greatest_up_to(told: &[Reviewed]) -> u32
    ensures { result ≡ greatest_up_to told.now }
{
    let mut greatest = 0;
    for decision in told {
        greatest = decision.cost_up_to().max(greatest);
    }
    greatest
}

/// How many decisions are certain to have cost something.
pub fn costly_among(told: &[Reviewed]) -> usize
    ensures { result ≡ costly_among told.now }
{
    told.iter().filter(|decision| decision.cost() > 0).count()
}

/// The greatest cost that is certain; 0 if there is none.
pub fn greatest_cost(told: &[Reviewed]) -> u32
    ensures { result ≡ greatest_cost told.now }
{
    let mut greatest = 0;
    for decision in told {
        greatest = decision.cost().max(greatest);
    }
    greatest
}

/// Appends the last line.
#[tactic(auto, unfolding(crate::specs::Texts::last_line))]
pub(crate) fn push_last(text: &mut Text, alloc: Global, told: &[Reviewed]) -> Result<(), AllocError>
    ensures { OnOk result (text.new ≡ text.old ++ last_line told.now) }
{
    push_number(text, alloc, b"decisions ", told.len() as u64)?;
    push_number(text, alloc, b" costly ", costly_among(told) as u64)?;
    push_number(text, alloc, b" to ", maybe_costly_among(told) as u64)?;
    push_number(text, alloc, b" greatest ", u64::from(greatest_cost(told)))?;
    push_number(text, alloc, b" to ", u64::from(greatest_up_to(told)))?;
    text.push(b"\n")
}

/// Appends a line for each decision, and the last line.
#[tactic(auto, unfolding(crate::specs::Texts::decisions_text))]
pub(crate) fn push_decisions(
    text: &mut Text,
    alloc: Global,
    told: &[Reviewed],
) -> Result<(), AllocError>
    ensures { OnOk result (text.new ≡ text.old ++ decisions_text told.now) }
{
    push_lines(text, alloc, told)?;
    push_last(text, alloc, told)
}

/// What a text is, and the greatest number of moves.
#[tactic(auto, unfolding(crate::specs::Texts::head_text))]
pub(crate) fn head_of(alloc: Global, title: &[u8], moves: u8) -> Result<Text, AllocError>
    ensures { IfOk result (λ text. text ≡ head_text title.now moves) }
{
    let mut text = Text::from_bytes(alloc, title)?;
    push_number(&mut text, alloc, b"\nmoves ", u64::from(moves))?;
    text.push(b"\n")?;
    Ok(text)
}

/// A line for each decision, with the card played, the card named and what the card cost, at least
/// and at most. Before them stands the greatest number of moves, and behind them how many decisions
/// there are, how many of them cost something, and the greatest cost: first what is certain, then
/// what may be.
///
/// Errors: an allocation fails.
#[tactic(auto, unfolding(crate::specs::Texts::review_text))]
pub fn review_text(alloc: Global, moves: u8, told: &[Reviewed]) -> Result<Text, AllocError>
    ensures { IfOk result (λ text. text ≡ review_text moves told.now) }
{
    let mut text = head_of(alloc, b"alphamu review 1", moves)?;
    push_decisions(&mut text, alloc, told)?;
    Ok(text)
}
