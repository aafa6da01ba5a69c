//! The layouts of a node.
ghost use Rattle.std.specs.Prelude.{◌≡◌, ◌<◌, ◌++◌, [], length, flat_map, OnOk};
ghost use Rattle.std.specs.List.{list_any, range_with_len};
ghost use Rattle.page_text.specs.Layouts.{side, hands, weight_note, worth, makes_at, maker};
ghost use Rattle.page_text.specs.Layouts.{made_by, makers, shown_by, layout_at, layouts};
ghost use Rattle.page_text.specs.Layouts.{number_item, file_numbers};

use crate::lines::{Line, push_link};
use crate::markup::{HAND_END, ITEM, LAYOUTS, NUMBERS, NUMBERS_END, SIDE, SIDE_HAND, WEIGHS};
use crate::plays::{PlayedLine, push_plays};
use crate::signs::{compass_word, push_hand};
use card_sets::{CardSet, Compass, Seat};
use html_text::Page;
use std::alloc::AllocError;
use trick_rules::{Node, Position};
use win_vectors::Weights;

// Adds a defender with a hand.
#[tactic(auto, unfolding(crate::specs::Layouts::side))]
fn push_side(page: &mut Page, place: Compass, hand: CardSet) -> Result<(), AllocError>
    ensures { OnOk result (page.new ≡ page.old ++ side place hand) }
{
    page.own(SIDE)?;
    page.own(compass_word(place))?;
    page.own(SIDE_HAND)?;
    push_hand(page, hand, CardSet::empty())?;
    page.own(HAND_END)
}

// Adds the hands of the defenders in the layout of a place, if Left has this one.
#[tactic(auto, unfolding(crate::specs::Layouts::hands))]
fn push_hands(
    page: &mut Page,
    place: u16,
    declarer: Compass,
    position: &Position,
    left: CardSet,
) -> Result<(), AllocError>
    ensures { OnOk result (page.new ≡ page.old ++ hands place declarer position.now left) }
{
    let right = position.hand(Seat::Right, left);
    page.number_between(ITEM, u64::from(place) + 1, b"'>")?;
    push_side(page, declarer.next(), left)?;
    push_side(page, declarer.next().next().next(), right)
}

#[tactic(auto, unfolding(crate::specs::Layouts::weight_note))]
fn push_weight(page: &mut Page, weight: u32) -> Result<(), AllocError>
    ensures { OnOk result (page.new ≡ page.old ++ weight_note weight) }
{
    page.number_between(WEIGHS, u64::from(weight), b". ")
}

// Adds what a layout weighs, if layouts are weighed.
fn push_worth(page: &mut Page, by_weight: bool, weight: u32) -> Result<(), AllocError>
    ensures { OnOk result (page.new ≡ page.old ++ worth by_weight weight) }
{
    if by_weight {
        push_weight(page, weight)
    } else {
        page.own(b"<p>")
    }
}

// Whether a line makes the layout at a place.
fn makes_at(place: u16, line: &Line) -> bool
    ensures { result ≡ makes_at place line.now }
{
    if place < line.vector.width() {
        line.vector.get(place)
    } else {
        false
    }
}

fn push_maker(page: &mut Page, place: u16, line: &Line) -> Result<(), AllocError>
    ensures { OnOk result (page.new ≡ page.old ++ maker place line.now) }
{
    if !makes_at(place, line) {
        return Ok(());
    }
    page.own(b" ")?;
    push_link(page, line.number)
}

fn push_each_maker(page: &mut Page, place: u16, lines: &[Line]) -> Result<(), AllocError>
    ensures { OnOk result (page.new ≡ page.old ++ flat_map (maker place) lines.now) }
{
    for line in lines {
        push_maker(page, place, line)?;
    }
    Ok(())
}

// Whether a line makes it.
fn is_made(place: u16, lines: &[Line]) -> bool
    ensures { result ≡ list_any (makes_at place) lines.now }
{
    lines.iter().any(|line| makes_at(place, line))
}

fn made_by(is_made: bool) -> &'static [u8]
    ensures { result.now ≡ made_by is_made }
{
    if is_made {
        b"Made by line"
    } else {
        b"No line makes it"
    }
}

// Adds the lines that make the layout at a place.
#[tactic(auto, unfolding(crate::specs::Layouts::makers))]
fn push_makers(page: &mut Page, place: u16, lines: &[Line]) -> Result<(), AllocError>
    ensures { OnOk result (page.new ≡ page.old ++ makers place lines.now) }
{
    page.own(made_by(is_made(place, lines)))?;
    push_each_maker(page, place, lines)?;
    page.own(b".</p>\n")
}

/// What a page shows of the layouts of a node.
#[derive(Drop)]
pub struct Layouts<'a> {
    pub declarer: Compass,
    pub node: &'a Node,
    /// Whether the layouts are weighed, and not counted.
    pub by_weight: bool,
    pub weights: &'a Weights,
    pub lines: &'a [Line],
    /// Some of the lines, played out.
    pub played: &'a [PlayedLine],
}

// Adds the layout at a place.
#[tactic(auto, unfolding(crate::specs::Layouts::layout_at))]
fn push_layout(page: &mut Page, shown: &Layouts, place: u16) -> Result<(), AllocError>
    requires weighed { length shown.now.weights.now ≡ length shown.now.node.now.lefts }
    requires place { place < length shown.now.node.now.lefts }
    ensures { OnOk result (page.new ≡ page.old ++ layout_at (shown_by shown.now) place) }
{
    let position = shown.node.position();
    push_hands(
        page,
        place,
        shown.declarer,
        position,
        shown.node.left(place),
    )?;
    push_worth(page, shown.by_weight, shown.weights.get(place))?;
    push_makers(page, place, shown.lines)?;
    push_plays(page, position, place, shown.played)
}

/// Adds the layouts of a node in order: the defenders' hands, the weight of each if layouts are
/// weighed, the lines that make it, and those that are played out there.
#[tactic(auto, unfolding(crate::specs::Layouts::layouts))]
pub fn push_layouts(page: &mut Page, shown: &Layouts) -> Result<(), AllocError>
    requires { length shown.now.weights.now ≡ length shown.now.node.now.lefts }
    ensures { OnOk result (page.new ≡ page.old ++ layouts (shown_by shown.now)) }
{
    page.own(LAYOUTS)?;
    for place in 0..shown.node.width() {
        push_layout(page, shown, place)?;
    }
    Ok(())
}

fn push_each_number(page: &mut Page, numbers: &[u16]) -> Result<(), AllocError>
    ensures { OnOk result (page.new ≡ page.old ++ flat_map number_item numbers.now) }
{
    for number in numbers {
        page.own(b" ")?;
        page.number(u64::from(*number))?;
    }
    Ok(())
}

/// Adds the numbers of the layouts in the layout file.
#[tactic(auto, unfolding(crate::specs::Layouts::file_numbers))]
pub fn push_numbers(page: &mut Page, numbers: &[u16]) -> Result<(), AllocError>
    ensures { OnOk result (page.new ≡ page.old ++ file_numbers numbers.now) }
{
    page.own(NUMBERS)?;
    push_each_number(page, numbers)?;
    page.own(NUMBERS_END)
}
