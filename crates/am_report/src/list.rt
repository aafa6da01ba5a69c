//! Layouts in text, as a layout file lists them.
ghost use Rattle.std.specs.Prelude.{◌≡◌, ◌++◌, IfOk, OnOk, flat_map};
ghost use Rattle.am_report.specs.LayoutFile.{dealt_hand, hand_at_compass, layout_line, list_text};

use byte_text::Text;
use card_sets::{CardSet, Compass, Seat};
use layout_list::Layout;
use pbn_deal::{Board, deal_text, seat_of};
use std::alloc::{AllocError, Global};

// The hand of a seat before the first card.
fn dealt_hand(board: &Board, layout: &Layout, seat: Seat) -> CardSet
    ensures { result ≡ dealt_hand board.now layout.now seat }
{
    match seat {
        Seat::Declarer => board.declarer_hand(),
        Seat::Left => layout.left,
        Seat::Dummy => board.dummy_hand(),
        Seat::Right => layout.right,
    }
}

// The hand at a place of the table.
fn hand_at_compass(board: &Board, layout: &Layout, place: Compass) -> CardSet
    ensures { result ≡ hand_at_compass board.now layout.now place }
{
    dealt_hand(board, layout, seat_of(board.declarer(), place))
}

#[tactic(auto, unfolding(crate::specs::LayoutFile::layout_line))]
fn layout_line(alloc: Global, board: &Board, layout: &Layout) -> Result<Text, AllocError>
    ensures { IfOk result (λ line. line ≡ layout_line board.now layout.now) }
{
    let hands = [
        Some(hand_at_compass(board, layout, Compass::N)),
        Some(hand_at_compass(board, layout, Compass::E)),
        Some(hand_at_compass(board, layout, Compass::S)),
        Some(hand_at_compass(board, layout, Compass::W)),
    ];
    let mut line = deal_text(alloc, hands)?;
    line.push(b"\n")?;
    Ok(line)
}

// Appends a line for each layout.
fn push_layouts(
    text: &mut Text,
    alloc: Global,
    board: &Board,
    layouts: &[Layout],
) -> Result<(), AllocError>
    ensures { OnOk result (text.new ≡ text.old ++ flat_map (layout_line board.now) layouts.now) }
{
    for layout in layouts {
        text.push(layout_line(alloc, board, layout)?.bytes())?;
    }
    Ok(())
}

/// A layout file: a line that says what it is, and for each layout a line with the four hands
/// before the first played card, from North.
#[tactic(auto, unfolding(crate::specs::LayoutFile::list_text))]
pub fn list_text(alloc: Global, board: &Board, layouts: &[Layout]) -> Result<Text, AllocError>
    ensures { IfOk result (λ text. text ≡ list_text board.now layouts.now) }
{
    let mut text = Text::new(alloc);
    text.push(b"% alphamu layouts 1\n")?;
    push_layouts(&mut text, alloc, board, layouts)?;
    Ok(text)
}
