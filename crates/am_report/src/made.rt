//! The text of what is found for layouts that a number makes.
ghost use Rattle.std.specs.Prelude.{◌≡◌, ◌++◌, IfOk};
ghost use Rattle.am_report.specs.Made.{made_text};

use crate::lines::{push_line, push_number_line};
use byte_text::Text;
use card_letters::letters_of;
use card_sets::Card;
use std::alloc::{AllocError, Global};

/// What is found for the layouts that a number makes.
#[derive(Clone, Copy, Debug)]
pub struct MadeSummary {
    /// The number that the layouts are made from.
    pub number: u64,
    /// How many layouts are kept.
    pub layouts: u16,
    /// How many vectors the front has.
    pub front: u64,
    /// In how many of the kept layouts the contract is made.
    pub best: u16,
    /// The card to play.
    pub card: Card,
}

/// A line for each of the parts, in order.
#[tactic(auto, unfolding(crate::specs::Made::made_text))]
pub fn made_text(alloc: Global, summary: &MadeSummary) -> Result<Text, AllocError>
    ensures { IfOk result (λ text. text ≡ made_text summary.now) }
{
    let mut text = Text::new(alloc);
    text.push(b"alphamu made 1\n")?;
    push_number_line(&mut text, alloc, b"number ", summary.number)?;
    push_number_line(&mut text, alloc, b"layouts ", u64::from(summary.layouts))?;
    push_number_line(&mut text, alloc, b"front ", summary.front)?;
    push_number_line(&mut text, alloc, b"best ", u64::from(summary.best))?;
    push_line(&mut text, b"card ", &letters_of(summary.card))?;
    Ok(text)
}
