//! The lines of plans.
ghost use Rattle.std.specs.Prelude.{◌≡◌, ◌++◌, OnOk};
ghost use Rattle.byte_text.specs.Lines.{line_of};
ghost use Rattle.card_letters.specs.Letters.{letters_of};
ghost use Rattle.strategy_tree.specs.PlanText.{stop_line, play_line, hear_line, on_line};

use crate::writer::PlanWriter;
use card_letters::letters_of;
use card_sets::Card;
use std::alloc::{AllocError, Global};

#[tactic(auto, unfolding(strategy_tree::specs::PlanText::stop_line))]
pub(crate) fn push_stop(out: &mut PlanWriter) -> Result<(), AllocError>
    ensures { OnOk result (out.new ≡ out.old ++ stop_line) }
{
    out.push(b"stop\n")
}

// A line of a word and a card.
fn push_card(out: &mut PlanWriter, word: &[u8], card: Card) -> Result<(), AllocError>
    ensures { OnOk result (out.new ≡ out.old ++ line_of (word.now ++ letters_of card)) }
{
    out.push(word)?;
    out.push(&letters_of(card))?;
    out.push(b"\n")
}

#[tactic(auto, unfolding(strategy_tree::specs::PlanText::play_line))]
pub(crate) fn push_play(out: &mut PlanWriter, card: Card) -> Result<(), AllocError>
    ensures { OnOk result (out.new ≡ out.old ++ play_line card) }
{
    push_card(out, b"play ", card)
}

/// The line before `count` replies.
#[tactic(auto, unfolding(strategy_tree::specs::PlanText::hear_line))]
pub(crate) fn push_hear(out: &mut PlanWriter, alloc: Global, count: u8) -> Result<(), AllocError>
    ensures { OnOk result (out.new ≡ out.old ++ hear_line count) }
{
    let digits = format!(in alloc; "{count}")?;
    out.push(b"hear ")?;
    out.push(digits.as_bytes())?;
    out.push(b"\n")
}

/// The line before the reply to a defender's card.
#[tactic(auto, unfolding(strategy_tree::specs::PlanText::on_line))]
pub(crate) fn push_on(out: &mut PlanWriter, card: Card) -> Result<(), AllocError>
    ensures { OnOk result (out.new ≡ out.old ++ on_line card) }
{
    push_card(out, b"on ", card)
}
