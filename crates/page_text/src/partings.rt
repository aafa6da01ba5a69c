//! Where the lines part.
ghost use Rattle.std.specs.Prelude.{◌≡◌, ◌<◌, ◌++◌, length, flat_map, OnOk};
ghost use Rattle.trick_rules.specs.Play.{next_trick};
ghost use Rattle.page_text.specs.Partings.{name, defender, played, sign_after, one_card, history};
ghost use Rattle.page_text.specs.Partings.{trick_after, opening, both_lines, other_line};
ghost use Rattle.page_text.specs.Partings.{other_card, parting, beside};
ghost use Rattle.page_text.specs.Partings.{first_few, list, partings};

use crate::lines::push_link;
use crate::markup::{
    ALIKE, AND_LINE, BESIDE, BOTH_LINES, NO_SECOND, ONLY_SIX, PARTED, PARTINGS, SECTION_END,
};
use crate::signs::{compass_word, push_card};
use crate::verdict::from_hand;
use card_sets::{Card, Compass, Seat};
use html_text::Page;
use line_partings::Parting;
use std::alloc::AllocError;
use trick_rules::{Position, Trick, Trump};

/// A later line of a report, compared with the first.
#[derive(Debug, Drop)]
pub struct Beside {
    /// Its number, from 2.
    pub number: u64,
    /// Where the first line and it part; `None` if they are the same.
    pub parting: Option<Parting>,
}

#[tactic(auto, unfolding(crate::specs::Partings::name))]
fn push_name(page: &mut Page, place: Compass) -> Result<(), AllocError>
    ensures { OnOk result (page.new ≡ page.old ++ name place) }
{
    page.own(compass_word(place))?;
    page.own(b" ")
}

// Adds the name of a defender, before his card.
fn push_defender(page: &mut Page, declarer: Compass, seat: Seat) -> Result<(), AllocError>
    ensures { OnOk result (page.new ≡ page.old ++ defender declarer seat) }
{
    match seat {
        Seat::Left => push_name(page, declarer.next()),
        Seat::Right => push_name(page, declarer.next().next().next()),
        Seat::Declarer | Seat::Dummy => Ok(()),
    }
}

// Adds a card, with the hand that it comes from or the defender who plays it.
#[tactic(auto, unfolding(crate::specs::Partings::played))]
fn push_played(page: &mut Page, declarer: Compass, seat: Seat, card: Card) -> Result<(), AllocError>
    ensures { OnOk result (page.new ≡ page.old ++ played declarer seat card) }
{
    push_defender(page, declarer, seat)?;
    push_card(page, card)?;
    page.own(from_hand(seat))
}

fn sign_after(trick: &Trick) -> &'static [u8]
    ensures { result.now ≡ sign_after trick.now }
{
    if trick.cards.is_empty() { b"; " } else { b", " }
}

// Adds a card of a history, and puts it into the trick.
#[tactic(auto, unfolding(crate::specs::Partings::one_card))]
fn push_one_card(
    page: &mut Page,
    declarer: Compass,
    trump: Trump,
    trick: &mut Trick,
    card: Card,
) -> Result<(), AllocError>
    requires { length trick.old.cards < 4 }
    ensures card { OnOk result (page.new ≡ page.old ++ one_card declarer trump trick.old card) }
    ensures trick { OnOk result (trick.new ≡ next_trick trump trick.old card) }
    ensures short { OnOk result (length trick.new.cards < 4) }
{
    push_played(page, declarer, trick.to_play(), card)?;
    trick.add(trump, card);
    page.own(sign_after(trick))
}

// Adds the cards of a history, and puts them into the trick and those after it.
fn push_history(
    page: &mut Page,
    declarer: Compass,
    trump: Trump,
    trick: &mut Trick,
    cards: &[Card],
) -> Result<(), AllocError>
    requires { length trick.old.cards < 4 }
    ensures cards { OnOk result (page.new ≡ page.old ++ history declarer trump trick.old cards.now) }
    ensures trick { OnOk result (trick.new ≡ trick_after trump trick.old cards.now) }
{
    for card in cards {
        push_one_card(page, declarer, trump, trick, *card)?;
    }
    Ok(())
}

fn opening(history: &[Card]) -> &'static [u8]
    ensures { result.now ≡ opening history.now }
{
    if history.is_empty() {
        b": at once "
    } else {
        b": after "
    }
}

// Adds the first line and the one of a number, as links to their words.
#[tactic(auto, unfolding(crate::specs::Partings::both_lines))]
fn push_both_lines(page: &mut Page, number: u64) -> Result<(), AllocError>
    ensures { OnOk result (page.new ≡ page.old ++ both_lines number) }
{
    page.own(BOTH_LINES)?;
    push_link(page, number)
}

#[tactic(auto, unfolding(crate::specs::Partings::other_line))]
fn push_other_line(page: &mut Page, number: u64) -> Result<(), AllocError>
    ensures { OnOk result (page.new ≡ page.old ++ other_line number) }
{
    page.number_between(AND_LINE, number, b" ")
}

// Adds the card that the line of a number plays, and from which hand.
#[tactic(auto, unfolding(crate::specs::Partings::other_card))]
fn push_other_card(page: &mut Page, number: u64, card: Card, seat: Seat) -> Result<(), AllocError>
    ensures { OnOk result (page.new ≡ page.old ++ other_card number card seat) }
{
    push_other_line(page, number)?;
    push_card(page, card)?;
    page.own(from_hand(seat))?;
    page.own(b".</li>\n")
}

// Adds where the first line and the one of a number part.
#[tactic(auto, unfolding(crate::specs::Partings::parting))]
fn push_parting(
    page: &mut Page,
    declarer: Compass,
    position: &Position,
    number: u64,
    place: &Parting,
) -> Result<(), AllocError>
    ensures { OnOk result (page.new
        ≡ page.old ++ parting declarer position.now number place.now) }
{
    let _turn = position.to_play();
    let mut trick = position.trick.copy();
    page.own(opening(&place.history))?;
    push_history(page, declarer, position.trump, &mut trick, &place.history)?;
    page.own(PARTED)?;
    push_card(page, place.card)?;
    push_other_card(page, number, place.other, trick.to_play())
}

#[tactic(auto, unfolding(crate::specs::Partings::beside))]
fn push_beside(
    page: &mut Page,
    declarer: Compass,
    position: &Position,
    line: &Beside,
) -> Result<(), AllocError>
    ensures { OnOk result (page.new ≡ page.old ++ beside declarer position.now line.now) }
{
    push_both_lines(page, line.number)?;
    match &line.parting {
        Some(place) => push_parting(page, declarer, position, line.number, place),
        None => page.own(ALIKE),
    }
}

fn push_each_beside(
    page: &mut Page,
    declarer: Compass,
    position: &Position,
    besides: &[Beside],
) -> Result<(), AllocError>
    ensures { OnOk result
        (page.new ≡ page.old ++ flat_map (beside declarer position.now) besides.now) }
{
    for line in besides {
        push_beside(page, declarer, position, line)?;
    }
    Ok(())
}

fn first_few(lines: usize) -> &'static [u8]
    ensures { result.now ≡ first_few lines }
{
    if lines > 6 { ONLY_SIX } else { b"" }
}

#[tactic(auto, unfolding(crate::specs::Partings::list))]
fn push_list(
    page: &mut Page,
    declarer: Compass,
    position: &Position,
    besides: &[Beside],
) -> Result<(), AllocError>
    ensures { OnOk result (page.new ≡ page.old ++ list declarer position.now besides.now) }
{
    if besides.is_empty() {
        return page.own(NO_SECOND);
    }
    page.own(BESIDE)?;
    push_each_beside(page, declarer, position, besides)?;
    page.own(b"</ul>\n")
}

/// Adds where the first line and each of the next ones part, in a report with this many lines: the
/// cards after which they do, with the seats that play them, and the card that each line plays
/// then.
#[tactic(auto, unfolding(crate::specs::Partings::partings))]
pub fn push_partings(
    page: &mut Page,
    declarer: Compass,
    position: &Position,
    lines: usize,
    besides: &[Beside],
) -> Result<(), AllocError>
    ensures { OnOk result
        (page.new ≡ page.old ++ partings declarer position.now lines besides.now) }
{
    page.own(PARTINGS)?;
    push_list(page, declarer, position, besides)?;
    page.own(first_few(lines))?;
    page.own(SECTION_END)
}
