//! Lines played out in a layout, trick by trick.
ghost use Rattle.std.specs.Prelude.{◌≡◌, ◌≤◌, ◌<◌, ◌++◌, length, flat_map, OnOk};
ghost use Rattle.std.specs.List.{range_with_len};
ghost use Rattle.page_text.specs.Plays.{bare_sign, before_card, bare_card, played_card, ending};
ghost use Rattle.page_text.specs.Plays.{given_up as given_pieces, play_pieces, play_at, plays_at};

use crate::lines::push_link;
use crate::markup::{GIVEN_UP, PLAY, PLAY_END, PLAYS, PLAYS_END};
use card_letters::rank_letter;
use card_sets::{Card, Suit};
use html_text::Page;
use std::alloc::AllocError;
use trick_rules::{CardLine, Position};

/// What came of a line in a layout.
#[derive(Debug, Drop)]
pub struct PlayedOut {
    /// The cards in the order of play.
    pub cards: CardLine,
    pub made: bool,
    /// The card that gives the layout up: the first after which double dummy no longer makes it.
    pub given_up: Option<Card>,
}

/// A line of a report, played out in each layout.
#[derive(Debug, Drop)]
pub struct PlayedLine {
    /// Its number, from 1.
    pub number: u64,
    /// What came of it in each layout, in order.
    pub plays: Vec<PlayedOut>,
}

fn bare_sign(suit: Suit) -> &'static [u8]
    ensures { result.now ≡ bare_sign suit }
{
    match suit {
        Suit::Spades => b"&#9824;",
        Suit::Hearts => b"&#9829;",
        Suit::Diamonds => b"&#9830;",
        Suit::Clubs => b"&#9827;",
    }
}

// What stands before the card of a place, after this many earlier cards of its trick.
fn before_card(begun: usize, place: usize) -> &'static [u8]
    requires begun { begun ≤ 4 }
    requires place { place < 52 }
    ensures { result.now ≡ before_card begun place }
{
    if place == 0 {
        b""
    } else if (begun + place) % 4 == 0 {
        b" | "
    } else {
        b"&#160;"
    }
}

fn push_bare_card(page: &mut Page, card: Card) -> Result<(), AllocError>
    ensures { OnOk result (page.new ≡ page.old ++ bare_card card) }
{
    page.own(bare_sign(card.suit()))?;
    page.told(&[rank_letter(card.rank())])
}

// Adds the cards, with a bar between two tricks.
fn push_cards(page: &mut Page, begun: usize, cards: &CardLine) -> Result<(), AllocError>
    requires { begun ≤ 4 }
    ensures { OnOk result (page.new ≡ page.old
        ++ flat_map (played_card begun cards.now) (range_with_len 0 (length cards.now))) }
{
    for place in 0..cards.len() {
        page.own(before_card(begun, place))?;
        push_bare_card(page, cards.get(place))?;
    }
    Ok(())
}

fn ending(made: bool) -> &'static [u8]
    ensures { result.now ≡ ending made }
{
    if made {
        b" <b class='y'>made</b>: "
    } else {
        b" <b class='x'>down</b>: "
    }
}

// Adds the card that gives the layout up, if one does.
fn push_given_up(page: &mut Page, given_up: Option<Card>) -> Result<(), AllocError>
    ensures { OnOk result (page.new ≡ page.old ++ given_pieces given_up) }
{
    let Some(card) = given_up else {
        return Ok(());
    };
    page.own(GIVEN_UP)?;
    push_bare_card(page, card)?;
    page.own(b")")
}

#[tactic(auto, unfolding(crate::specs::Plays::play_pieces))]
fn push_play(page: &mut Page, begun: usize, number: u64, play: &PlayedOut) -> Result<(), AllocError>
    requires { begun ≤ 4 }
    ensures { OnOk result (page.new ≡ page.old ++ play_pieces begun number play.now) }
{
    page.own(PLAY)?;
    push_link(page, number)?;
    page.own(ending(play.made))?;
    push_cards(page, begun, &play.cards)?;
    push_given_up(page, play.given_up)?;
    page.own(PLAY_END)
}

// Adds a line in the layout of a place, if it is played out there.
fn push_play_at(
    page: &mut Page,
    begun: usize,
    place: u16,
    line: &PlayedLine,
) -> Result<(), AllocError>
    requires { begun ≤ 4 }
    ensures { OnOk result (page.new ≡ page.old ++ play_at begun place line.now) }
{
    match line.plays.get(usize::from(place)) {
        Some(play) => push_play(page, begun, line.number, play),
        None => Ok(()),
    }
}

fn push_each_play(
    page: &mut Page,
    begun: usize,
    place: u16,
    lines: &[PlayedLine],
) -> Result<(), AllocError>
    requires { begun ≤ 4 }
    ensures { OnOk result (page.new ≡ page.old ++ flat_map (play_at begun place) lines.now) }
{
    for line in lines {
        push_play_at(page, begun, place, line)?;
    }
    Ok(())
}

// How many cards lie in the present trick.
fn begun_in(position: &Position) -> usize
    ensures value { result ≡ length position.now.trick.cards }
    ensures few { result ≤ 4 }
{
    position.trick.cards.len()
}

/// Adds the lines in the layout of a place, each played out from the position on.
#[tactic(auto, unfolding(crate::specs::Plays::plays_at))]
pub fn push_plays(
    page: &mut Page,
    position: &Position,
    place: u16,
    lines: &[PlayedLine],
) -> Result<(), AllocError>
    ensures { OnOk result (page.new ≡ page.old
        ++ plays_at (length position.now.trick.cards) place lines.now) }
{
    page.own(PLAYS)?;
    push_each_play(page, begun_in(position), place, lines)?;
    page.own(PLAYS_END)
}
