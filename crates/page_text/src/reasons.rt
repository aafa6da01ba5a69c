//! What decides which layouts a line makes, in words.
ghost use Rattle.std.specs.Prelude.{◌≡◌, ◌++◌, option_copied, OnOk};
ghost use Rattle.page_text.specs.Reasons.{place_of, number_held, least_held, fact_pieces};
ghost use Rattle.page_text.specs.Reasons.{joint_word, reason_pieces, decided};
ghost use Rattle.page_text.specs.Reasons.{kept_line, kept_reason};

use crate::lines::Line;
use crate::markup::{DECIDED_END, HAS_AT_LEAST, HAS_EXACTLY, KEPT_DECIDED};
use crate::signs::{compass_word, push_card, suit_sign};
use crate::verdict::{begins_with, best_from};
use card_sets::{Card, Compass, Seat};
use html_text::Page;
use layout_facts::{Fact, Joint, Reason};
use std::alloc::AllocError;

// Where a seat sits.
fn place_of(declarer: Compass, seat: Seat) -> Compass
    ensures { result ≡ place_of declarer seat }
{
    match seat {
        Seat::Declarer => declarer,
        Seat::Left => declarer.next(),
        Seat::Dummy => declarer.next().next(),
        Seat::Right => declarer.next().next().next(),
    }
}

// Adds how many cards are held exactly.
#[tactic(auto, unfolding(crate::specs::Reasons::number_held))]
fn push_number_held(page: &mut Page, count: u8) -> Result<(), AllocError>
    ensures { OnOk result (page.new ≡ page.old ++ number_held count) }
{
    if 1 <= count {
        return page.number_between(HAS_EXACTLY, u64::from(count), b" ");
    }
    page.own(b" has no ")
}

// Adds how many cards are held at least.
#[tactic(auto, unfolding(crate::specs::Reasons::least_held))]
fn push_least_held(page: &mut Page, count: u8) -> Result<(), AllocError>
    ensures { OnOk result (page.new ≡ page.old ++ least_held count) }
{
    page.number_between(HAS_AT_LEAST, u64::from(count), b" ")
}

#[tactic(auto, unfolding(crate::specs::Reasons::fact_pieces))]
fn push_fact(page: &mut Page, declarer: Compass, fact: &Fact) -> Result<(), AllocError>
    ensures { OnOk result (page.new ≡ page.old ++ fact_pieces declarer fact.now) }
{
    match fact {
        Fact::Holds { seat, card } => {
            page.own(compass_word(place_of(declarer, *seat)))?;
            page.own(b" holds ")?;
            push_card(page, *card)
        }
        Fact::Exactly { seat, suit, count } => {
            page.own(compass_word(place_of(declarer, *seat)))?;
            push_number_held(page, *count)?;
            page.own(suit_sign(*suit))
        }
        Fact::AtLeast { seat, suit, count } => {
            page.own(compass_word(place_of(declarer, *seat)))?;
            push_least_held(page, *count)?;
            page.own(suit_sign(*suit))
        }
    }
}

fn joint_word(joint: Joint) -> &'static [u8]
    ensures { result.now ≡ joint_word joint }
{
    match joint {
        Joint::And => b" and ",
        Joint::Or => b" or ",
    }
}

fn push_reason(page: &mut Page, declarer: Compass, reason: &Reason) -> Result<(), AllocError>
    ensures { OnOk result (page.new ≡ page.old ++ reason_pieces declarer reason.now) }
{
    match reason {
        Reason::One(fact) => push_fact(page, declarer, fact),
        Reason::Two {
            first,
            joint,
            second,
        } => {
            push_fact(page, declarer, first)?;
            page.own(joint_word(*joint))?;
            push_fact(page, declarer, second)
        }
    }
}

/// Adds, after this start of a sentence, in which layouts a line makes, if a fact or two tell.
#[tactic(auto, unfolding(crate::specs::Reasons::decided))]
pub fn push_decided(
    page: &mut Page,
    start: &'static [u8],
    declarer: Compass,
    reason: &Option<Reason>,
) -> Result<(), AllocError>
    ensures { OnOk result (page.new ≡ page.old ++ decided start.now declarer reason.now) }
{
    let Some(reason) = reason else {
        return Ok(());
    };
    page.own(start)?;
    push_reason(page, declarer, reason)?;
    page.own(DECIDED_END)
}

// The first of the best lines that begin with the card.
fn kept_line<'a>(card: Card, best: u32, lines: &'a [Line]) -> Option<&'a Line>
    ensures { option_copied result ≡ kept_line card best lines.now }
{
    lines.iter().find(|line| begins_with(card, line.begins) && line.weight == best)
}

/// Adds in which layouts the line makes that the card keeps, if a fact or two tell.
pub fn push_kept_reason(
    page: &mut Page,
    declarer: Compass,
    card: Card,
    lines: &[Line],
) -> Result<(), AllocError>
    ensures { OnOk result (page.new ≡ page.old ++ kept_reason declarer card lines.now) }
{
    match kept_line(card, best_from(card, lines), lines) {
        Some(line) => push_decided(page, KEPT_DECIDED, declarer, &line.reason),
        None => Ok(()),
    }
}
