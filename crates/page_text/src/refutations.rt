//! Why sampling believes in more than the lines make.
ghost use Rattle.std.specs.Prelude.{◌≡◌, ◌<◌, ◌&&◌, ◌==◌, ◌++◌, false, is_some, length, get_or};
ghost use Rattle.std.specs.Prelude.{position, flat_map, IfSome, OnOk};
ghost use Rattle.std.specs.List.{list_any, range_with_len};
ghost use Rattle.page_text.specs.Verdicts.{begins_with};
ghost use Rattle.page_text.specs.Refutations.{refuting_place, is_card, fails_with, gives_up};
ghost use Rattle.page_text.specs.Refutations.{layout_link, given_layout, card_given, given_with};
ghost use Rattle.page_text.specs.Refutations.{refuted_card, given_cards, given_list};
ghost use Rattle.page_text.specs.Refutations.{refutation, refutation_in};
ghost use Rattle.page_text.specs.Refutations.{refutations};

use crate::beliefs::Belief;
use crate::lines::{Line, push_link};
use crate::markup::{GIVEN_WITH, GIVES_UP, REFUTATIONS, TO_LAYOUT};
use crate::plays::{PlayedLine, PlayedOut};
use crate::signs::push_card;
use crate::verdict::{begins_with, best_from};
use card_sets::Card;
use html_text::Page;
use std::alloc::AllocError;
use win_vectors::WinVector;

/// A card of which plain sampling believes more than the best line makes that begins with it.
#[derive(Debug, Drop)]
pub struct Refutation {
    pub card: Card,
    /// The layouts in which double dummy makes the contract after it.
    pub believed: WinVector,
    /// The line, played out in each layout.
    pub line: PlayedLine,
}

fn best_place(card: Card, best: u32, lines: &[Line]) -> Option<usize>
    ensures value { result
        ≡ position (λ line. begins_with card line.begins && (line.weight == best)) lines.now }
    ensures within { IfSome result (λ place. place < length lines.now) }
{
    lines.iter().position(|line| begins_with(card, line.begins) && line.weight == best)
}

/// The place, counted from 0, of the line that shows why a belief isn't true: the first of the best
/// lines that begin with its card.
///
/// `None` if these make as much as is believed, or if there is none.
pub fn refuting_place(lines: &[Line], belief: &Belief) -> Option<usize>
    ensures value { result ≡ refuting_place lines.now belief.now }
    ensures within { IfSome result (λ place. place < length lines.now) }
{
    let best = best_from(belief.card, lines);
    if best < belief.weight {
        best_place(belief.card, best, lines)
    } else {
        None
    }
}

fn is_card(card: Card, other: Option<Card>) -> bool
    ensures { result ≡ is_card card other }
{
    match other {
        None => false,
        Some(other) => other == card,
    }
}

// Whether a line fails where it is played out, and this is the card that gives the layout up.
fn fails_with(card: Card, play: &PlayedOut) -> bool
    ensures { result ≡ fails_with card play.now }
{
    !play.made && is_card(card, play.given_up)
}

// Whether sampling believes in the layout of a place.
fn is_believed(refuted: &Refutation, place: u16) -> bool
    requires { place < length refuted.now.believed }
    ensures { result ≡ get_or refuted.now.believed place false }
{
    refuted.believed.get(place)
}

// Whether the line gives up the layout of a place with this card, and sampling believes in it.
fn gives_up(refuted: &Refutation, card: Card, place: u16) -> bool
    requires { place < length refuted.now.believed }
    ensures { result ≡ gives_up refuted.now card place }
{
    match refuted.line.plays.get(usize::from(place)) {
        Some(play) => is_believed(refuted, place) && fails_with(card, play),
        None => false,
    }
}

// Whether it gives a layout up with this card.
fn gives_one_up(refuted: &Refutation, card: Card) -> bool
    ensures { result ≡ list_any (gives_up refuted.now card)
        (range_with_len 0 (length refuted.now.believed)) }
{
    let mut found = false;
    for place in 0..refuted.believed.width() {
        found |= gives_up(refuted, card, place);
    }
    found
}

#[tactic(auto, unfolding(crate::specs::Refutations::layout_link))]
fn push_layout_link(page: &mut Page, number: u64) -> Result<(), AllocError>
    ensures { OnOk result (page.new ≡ page.old ++ layout_link number) }
{
    page.own(TO_LAYOUT)?;
    page.number(number)?;
    page.own(b"'>")?;
    page.number(number)?;
    page.own(b"</a>")
}

fn push_given_layout(
    page: &mut Page,
    refuted: &Refutation,
    card: Card,
    place: u16,
) -> Result<(), AllocError>
    requires { place < length refuted.now.believed }
    ensures { OnOk result (page.new ≡ page.old ++ given_layout refuted.now card place) }
{
    if !gives_up(refuted, card, place) {
        return Ok(());
    }
    push_layout_link(page, u64::from(place) + 1)
}

fn push_given_layouts(page: &mut Page, refuted: &Refutation, card: Card) -> Result<(), AllocError>
    ensures { OnOk result (page.new ≡ page.old ++ flat_map (given_layout refuted.now card)
        (range_with_len 0 (length refuted.now.believed))) }
{
    for place in 0..refuted.believed.width() {
        push_given_layout(page, refuted, card, place)?;
    }
    Ok(())
}

#[tactic(auto, unfolding(crate::specs::Refutations::card_given))]
fn push_card_given(page: &mut Page, refuted: &Refutation, card: Card) -> Result<(), AllocError>
    ensures { OnOk result (page.new ≡ page.old ++ card_given refuted.now card) }
{
    page.own(GIVEN_WITH)?;
    push_card(page, card)?;
    page.own(b":")?;
    push_given_layouts(page, refuted, card)?;
    page.own(b"</li>\n")
}

// Adds a card with the layouts that it gives up, if there are any.
fn push_given_with(page: &mut Page, refuted: &Refutation, card: Card) -> Result<(), AllocError>
    ensures { OnOk result (page.new ≡ page.old ++ given_with refuted.now card) }
{
    if !gives_one_up(refuted, card) {
        return Ok(());
    }
    push_card_given(page, refuted, card)
}

// The same of each card, in card order.
#[tactic(auto, unfolding(crate::specs::Refutations::given_cards))]
fn push_each_given(page: &mut Page, refuted: &Refutation) -> Result<(), AllocError>
    ensures { OnOk result (page.new ≡ page.old ++ given_cards refuted.now) }
{
    for number in 0..52u8 {
        push_given_with(page, refuted, Card::from_number(number))?;
    }
    Ok(())
}

#[tactic(auto, unfolding(crate::specs::Refutations::refuted_card))]
fn push_refuted_card(page: &mut Page, refuted: &Refutation) -> Result<(), AllocError>
    ensures { OnOk result (page.new ≡ page.old ++ refuted_card refuted.now) }
{
    page.own(b"<li>")?;
    push_card(page, refuted.card)?;
    page.own(b": line ")?;
    push_link(page, refuted.line.number)
}

#[tactic(auto, unfolding(crate::specs::Refutations::given_list))]
fn push_given_list(page: &mut Page, refuted: &Refutation) -> Result<(), AllocError>
    ensures { OnOk result (page.new ≡ page.old ++ given_list refuted.now) }
{
    page.own(GIVES_UP)?;
    push_each_given(page, refuted)?;
    page.own(b"</ul></li>\n")
}

fn push_refutation(page: &mut Page, refuted: &Refutation) -> Result<(), AllocError>
    ensures { OnOk result (page.new ≡ page.old ++ refutation refuted.now) }
{
    push_refuted_card(page, refuted)?;
    push_given_list(page, refuted)
}

fn push_refutation_in(page: &mut Page, refuted: &Option<Refutation>) -> Result<(), AllocError>
    ensures { OnOk result (page.new ≡ page.old ++ refutation_in refuted.now) }
{
    match refuted {
        None => Ok(()),
        Some(refuted) => push_refutation(page, refuted),
    }
}

fn push_each_refutation(page: &mut Page, all: &[Option<Refutation>]) -> Result<(), AllocError>
    ensures { OnOk result (page.new ≡ page.old ++ flat_map refutation_in all.now) }
{
    for refuted in all {
        push_refutation_in(page, refuted)?;
    }
    Ok(())
}

fn has_one(all: &[Option<Refutation>]) -> bool
    ensures { result ≡ list_any is_some all.now }
{
    all.iter().any(|refuted| refuted.is_some())
}

/// Adds why beliefs aren't true, if some aren't: for each such card the layouts in which sampling
/// believes and the line fails, by the card that gives them up.
#[tactic(auto, unfolding(crate::specs::Refutations::refutations))]
pub fn push_refutations(page: &mut Page, all: &[Option<Refutation>]) -> Result<(), AllocError>
    ensures { OnOk result (page.new ≡ page.old ++ refutations all.now) }
{
    if !has_one(all) {
        return Ok(());
    }
    page.own(REFUTATIONS)?;
    push_each_refutation(page, all)?;
    page.own(b"</ul>\n")
}
