//! The head of a report: the table at the moment, and the layouts that the answer is about.
ghost use Rattle.std.specs.Prelude.{◌≡◌, ◌++◌, IfOk, OnOk, flat_map, codes};
ghost use Rattle.std.specs.Fmt.{decimal};
ghost use Rattle.byte_text.specs.Lines.{line_of};
ghost use Rattle.am_report.specs.Lines.{spaced};
ghost use Rattle.am_report.specs.Head.{trump_text, hand_line, cards_text, trick_line};
ghost use Rattle.am_report.specs.Head.{cause_text, dropped_line, kept_line, position_text};
ghost use Rattle.am_report.specs.Head.{head_text};
ghost use Rattle.am_report.specs.Versions.{version_of, weights_line};

use crate::lines::{push_line, push_number_line, push_space};
use crate::version::Version;
use byte_text::Text;
use card_letters::{compass_letter, letters_of, suit_letter};
use card_sets::{Card, CardSet, Seat};
use layout_list::{Cause, Dropped, Kept};
use pbn_deal::{Board, hand_text};
use std::alloc::{AllocError, Global};
use trick_rules::{Position, Trick, Trump};
use win_vectors::Weights;

fn push_trump_line(text: &mut Text, trump: Trump) -> Result<(), AllocError>
    ensures { OnOk result (text.new ≡ text.old ++ line_of (codes "trump " ++ trump_text trump)) }
{
    match trump {
        Trump::Suit(suit) => push_line(text, b"trump ", &[suit_letter(suit)]),
        Trump::NoTrump => push_line(text, b"trump ", b"NT"),
    }
}

#[tactic(auto, unfolding(crate::specs::Head::hand_line))]
fn push_hand_line(
    text: &mut Text,
    alloc: Global,
    board: &Board,
    seat: Seat,
    hand: CardSet,
) -> Result<(), AllocError>
    ensures { OnOk result (text.new ≡ text.old ++ hand_line board.now seat hand) }
{
    text.push(b"hand ")?;
    text.push(&[compass_letter(board.compass(seat))])?;
    push_line(text, b" ", hand_text(alloc, hand)?.bytes())
}

// Appends the cards of a trick with single spaces between them, or a dash if there is none.
fn push_cards(text: &mut Text, cards: &[Card]) -> Result<(), AllocError>
    ensures { OnOk result (text.new ≡ text.old ++ cards_text cards.now) }
{
    let [first, rest @ ..] = cards else {
        return text.push(b"-");
    };
    text.push(&letters_of(*first))?;
    for card in rest {
        text.push(b" ")?;
        text.push(&letters_of(*card))?;
    }
    Ok(())
}

#[tactic(auto, unfolding(crate::specs::Head::trick_line))]
fn push_trick_line(text: &mut Text, board: &Board, trick: &Trick) -> Result<(), AllocError>
    ensures { OnOk result (text.new ≡ text.old ++ trick_line board.now trick.now) }
{
    text.push(b"trick ")?;
    text.push(&[compass_letter(board.compass(trick.leader))])?;
    text.push(b" ")?;
    push_cards(text, trick.cards.as_slice())?;
    text.push(b"\n")
}

// Appends the contract, both hands, the trick and the seat to play.
fn push_position(
    text: &mut Text,
    alloc: Global,
    board: &Board,
    position: &Position,
) -> Result<(), AllocError>
    ensures { OnOk result (text.new ≡ text.old ++ position_text board.now position.now) }
{
    push_line(text, b"declarer ", &[compass_letter(board.declarer())])?;
    push_trump_line(text, position.trump)?;
    push_number_line(text, alloc, b"need ", u64::from(position.need))?;
    push_hand_line(text, alloc, board, Seat::Declarer, position.declarer)?;
    push_hand_line(text, alloc, board, Seat::Dummy, position.dummy)?;
    push_trick_line(text, board, &position.trick)?;
    push_line(
        text,
        b"turn ",
        &[compass_letter(board.compass(position.to_play()))],
    )
}

// Appends numbers with single spaces between them.
fn push_numbers(text: &mut Text, alloc: Global, numbers: &[u16]) -> Result<(), AllocError>
    ensures { OnOk result (text.new ≡ text.old ++ spaced decimal numbers.now) }
{
    let [first, rest @ ..] = numbers else {
        return Ok(());
    };
    text.push_number(alloc, u64::from(*first))?;
    for number in rest {
        text.push(b" ")?;
        text.push_number(alloc, u64::from(*number))?;
    }
    Ok(())
}

#[tactic(auto, unfolding(crate::specs::Head::kept_line))]
fn push_kept_line(text: &mut Text, alloc: Global, numbers: &[u16]) -> Result<(), AllocError>
    ensures { OnOk result (text.new ≡ text.old ++ kept_line numbers.now) }
{
    text.push(b"kept ")?;
    push_numbers(text, alloc, numbers)?;
    text.push(b"\n")
}

// Appends weights with single spaces between them.
fn push_each_weight(text: &mut Text, alloc: Global, weights: &Weights) -> Result<(), AllocError>
    ensures { OnOk result (text.new ≡ text.old ++ spaced decimal weights.now) }
{
    for place in 0..weights.width() {
        push_space(text, usize::from(place))?;
        text.push_number(alloc, u64::from(weights.get(place)))?;
    }
    Ok(())
}

// Appends the line of the weights, if the version of a text about them has one.
fn push_weights_line(text: &mut Text, alloc: Global, weights: &Weights) -> Result<(), AllocError>
    ensures { OnOk result
        (text.new ≡ text.old ++ weights_line (version_of weights.now) weights.now) }
{
    match Version::of(weights) {
        Version::Counts => Ok(()),
        Version::Weights => {
            text.push(b"weights ")?;
            push_each_weight(text, alloc, weights)?;
            text.push(b"\n")
        }
    }
}

fn cause_text(cause: Cause) -> &'static [u8]
    ensures { result.now ≡ cause_text cause }
{
    match cause {
        Cause::NotHeld => b"notheld",
        Cause::Revoke => b"revoke",
    }
}

#[tactic(auto, unfolding(crate::specs::Head::dropped_line))]
fn push_dropped_line(text: &mut Text, alloc: Global, layout: Dropped) -> Result<(), AllocError>
    ensures { OnOk result (text.new ≡ text.old ++ dropped_line layout) }
{
    text.push(b"dropped ")?;
    text.push_number(alloc, u64::from(layout.number))?;
    text.push(b" ")?;
    text.push(cause_text(layout.cause))?;
    push_number_line(text, alloc, b" ", u64::from(layout.play))
}

// Appends a line for each dropped layout.
fn push_dropped(text: &mut Text, alloc: Global, dropped: &[Dropped]) -> Result<(), AllocError>
    ensures { OnOk result (text.new ≡ text.old ++ flat_map dropped_line dropped.now) }
{
    for layout in dropped {
        push_dropped_line(text, alloc, *layout)?;
    }
    Ok(())
}

/// The head of a report: the table after the play, with declarer's hand and then dummy's; the moves
/// that declarer's side has, and the numbers of the kept layouts, with their weights where not each
/// weighs 1; and for each dropped layout the cause and the card that it contradicts.
#[tactic(auto, unfolding(crate::specs::Head::head_text))]
pub fn head_text(alloc: Global, board: &Board, kept: &Kept, moves: u8) -> Result<Text, AllocError>
    ensures { IfOk result (λ text. text ≡ head_text board.now kept.now moves) }
{
    let mut text = Text::new(alloc);
    push_line(
        &mut text,
        b"alphamu report ",
        Version::of(&kept.weights).number(),
    )?;
    push_position(&mut text, alloc, board, kept.node.position())?;
    push_number_line(&mut text, alloc, b"moves ", u64::from(moves))?;
    push_kept_line(&mut text, alloc, &kept.numbers)?;
    push_weights_line(&mut text, alloc, &kept.weights)?;
    push_dropped(&mut text, alloc, &kept.dropped)?;
    Ok(text)
}
