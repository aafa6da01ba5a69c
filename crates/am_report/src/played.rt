//! The text of a layout that was played out.
ghost use Rattle.std.specs.Prelude.{◌≡◌, ◌++◌, ◌∷◌, [], IfOk, OnOk, codes};
ghost use Rattle.byte_text.specs.Lines.{line_of};
ghost use Rattle.card_letters.specs.Letters.{letters_of};
ghost use Rattle.am_report.specs.Lines.{spaced};
ghost use Rattle.am_report.specs.Match.{match_text};

use crate::lines::{push_line, push_number_line, push_space};
use bit_letters::bit_letter;
use byte_text::Text;
use card_letters::letters_of;
use std::alloc::{AllocError, Global};
use trick_rules::CardLine;

// Appends cards with single spaces between them.
fn push_card_line(text: &mut Text, cards: &CardLine) -> Result<(), AllocError>
    ensures { OnOk result (text.new ≡ text.old ++ spaced letters_of cards.now) }
{
    for place in 0..cards.len() {
        push_space(text, place)?;
        text.push(&letters_of(cards.get(place)))?;
    }
    Ok(())
}

/// What came of a layout that was played out: its number, the vector's bit at it, the cards in the
/// order of play, and whether declarer's side made.
#[tactic(auto, unfolding(crate::specs::Match::match_text))]
pub fn match_text(
    alloc: Global,
    layout: u16,
    bit: bool,
    cards: &CardLine,
    made: bool,
) -> Result<Text, AllocError>
    ensures { IfOk result (λ text. text ≡ match_text layout bit cards.now made) }
{
    let mut text = Text::new(alloc);
    text.push(b"alphamu match 1\n")?;
    push_number_line(&mut text, alloc, b"layout ", u64::from(layout))?;
    push_line(&mut text, b"bit ", &[bit_letter(bit)])?;
    text.push(b"cards ")?;
    push_card_line(&mut text, cards)?;
    text.push(b"\n")?;
    push_line(&mut text, b"made ", &[bit_letter(made)])?;
    Ok(text)
}
