//! What a report comes to.
ghost use Rattle.std.specs.Prelude.{◌≡◌, ◌++◌, OnOk};
ghost use Rattle.page_text.specs.Verdicts.{from_hand, headline, unit, share, begins_with};
ghost use Rattle.page_text.specs.Verdicts.{weight_from, best_from, best_of, others, promise};
ghost use Rattle.page_text.specs.Verdicts.{plans_all, is_least, is_sure, makes, how_sure};
ghost use Rattle.page_text.specs.Verdicts.{cards_planned, known_least, at_least, horizon};

use crate::lines::Line;
use crate::markup::{ALL_PLANNED, AT_LEAST, HEADLINE, MOST_END, PLANNED, PLANNED_END, SURE_END};
use crate::signs::push_card;
use card_sets::{Card, Seat};
use html_text::Page;
use std::alloc::AllocError;
use trick_rules::Position;

/// What all kept layouts come to.
#[derive(Clone, Copy, Debug)]
pub struct Scale {
    /// How many there are, or what they weigh together.
    pub total: u32,
    /// Whether they are weighed, and not counted.
    pub by_weight: bool,
}

/// The hand that a seat of declarer's side plays from.
pub fn from_hand(seat: Seat) -> &'static [u8]
    ensures { result.now ≡ from_hand seat }
{
    match seat {
        Seat::Declarer => b" from hand",
        Seat::Dummy => b" from dummy",
        Seat::Left | Seat::Right => b"",
    }
}

/// Adds the card to play, and from which hand.
#[tactic(auto, unfolding(crate::specs::Verdicts::headline))]
pub fn push_headline(page: &mut Page, position: &Position, card: Card) -> Result<(), AllocError>
    ensures { OnOk result (page.new ≡ page.old ++ headline position.now card) }
{
    page.own(HEADLINE)?;
    push_card(page, card)?;
    page.own(from_hand(position.to_play()))?;
    page.own(b"</h1>\n")
}

/// Whether layouts are counted or weighed.
pub fn unit(scale: Scale) -> &'static [u8]
    ensures { result.now ≡ unit scale }
{
    if scale.by_weight {
        b" by weight"
    } else {
        b" layouts"
    }
}

/// Adds how many layouts of all there are, or what weight.
#[tactic(auto, unfolding(crate::specs::Verdicts::share))]
pub fn push_share(page: &mut Page, scale: Scale, weight: u32) -> Result<(), AllocError>
    ensures { OnOk result (page.new ≡ page.old ++ share scale weight) }
{
    page.number(u64::from(weight))?;
    page.own(b" of ")?;
    page.number(u64::from(scale.total))?;
    page.own(unit(scale))
}

/// Whether a line begins with the card or has stopped before it, by the line's first card.
pub fn begins_with(card: Card, first: Option<Card>) -> bool
    ensures { result ≡ begins_with card first }
{
    match first {
        None => true,
        Some(first) => first == card,
    }
}

// The weight of a line, if it begins with the card.
fn weight_from(card: Card, line: &Line) -> u32
    ensures { result ≡ weight_from card line.now }
{
    if begins_with(card, line.begins) {
        line.weight
    } else {
        0
    }
}

/// The greatest weight of the lines that begin with the card.
pub fn best_from(card: Card, lines: &[Line]) -> u32
    ensures { result ≡ best_from card lines.now }
{
    let mut best = 0;
    for line in lines {
        best = best.max(weight_from(card, line));
    }
    best
}

/// The greatest weight of all lines.
pub fn best_of(lines: &[Line]) -> u32
    ensures { result ≡ best_of lines.now }
{
    let mut best = 0;
    for line in lines {
        best = best.max(line.weight);
    }
    best
}

/// The lines that are known to make no more than the best of a report.
#[derive(Clone, Copy, Debug, PartialEq, Eq)]
pub enum Rivals {
    /// Those of the report alone.
    Reported,
    /// All that plan as many cards.
    Planned,
    /// All that there are.
    All,
}

fn others(rivals: Rivals, is_best: bool) -> &'static [u8]
    ensures { result.now ≡ others rivals is_best }
{
    if !is_best {
        return b"Another line of this report makes more.";
    }
    match rivals {
        Rivals::Reported => b"No line of this report makes more.",
        Rivals::Planned => b"No line that plans as many cards makes more.",
        Rivals::All => b"No line makes more.",
    }
}

/// How sure it is what the card to play keeps: how far the lines of a report are planned, and what
/// is known of the card.
#[derive(Clone, Copy, Debug)]
pub struct Surety {
    /// How many cards of declarer's side the lines plan.
    pub moves: u8,
    /// Whether these are all cards that it has left.
    pub all: bool,
    /// The least that the card is known to win, as its row among all legal cards has it: a count of
    /// layouts, or what they weigh.
    pub least: Option<u32>,
}

impl Surety {
    // Whether this much is the least that the card is known to win.
    fn is_least(self, kept: u32) -> bool
        ensures { result ≡ is_least self.least kept }
    {
        match self.least {
            Some(least) => least == kept,
            None => false,
        }
    }

    /// Whether the card wins as much as a line that it keeps makes, whatever the defenders do.
    pub fn is_sure(self, kept: u32) -> bool
        ensures { result ≡ is_sure self kept }
    {
        self.all || self.is_least(kept)
    }
}

fn makes(is_sure: bool) -> &'static [u8]
    ensures { result.now ≡ makes is_sure }
{
    match is_sure {
        true => b"<p class='promise'>It keeps a line that makes <strong>",
        false => b"<p class='promise'>It keeps a line that makes at most <strong>",
    }
}

#[tactic(auto, unfolding(crate::specs::Verdicts::cards_planned))]
fn push_cards_planned(page: &mut Page, moves: u8) -> Result<(), AllocError>
    ensures { OnOk result (page.new ≡ page.old ++ cards_planned moves) }
{
    page.own(MOST_END)?;
    page.number(u64::from(moves))?;
    page.own(b"). ")
}

fn push_how_sure(page: &mut Page, is_sure: bool, moves: u8) -> Result<(), AllocError>
    ensures { OnOk result (page.new ≡ page.old ++ how_sure is_sure moves) }
{
    match is_sure {
        true => page.own(b"</strong>, whatever the defenders do. "),
        false => push_cards_planned(page, moves),
    }
}

#[tactic(auto, unfolding(crate::specs::Verdicts::known_least))]
fn push_known_least(page: &mut Page, least: u32) -> Result<(), AllocError>
    ensures { OnOk result (page.new ≡ page.old ++ known_least least) }
{
    page.own(AT_LEAST)?;
    page.number(u64::from(least))?;
    page.own(b".")
}

fn push_least(page: &mut Page, is_sure: bool, least: Option<u32>) -> Result<(), AllocError>
    ensures { OnOk result (page.new ≡ page.old ++ at_least is_sure least) }
{
    match (is_sure, least) {
        (false, Some(least)) => push_known_least(page, least),
        _ => Ok(()),
    }
}

/// Adds what the card keeps: whatever the defenders do, or at most, with the least that is known.
#[tactic(auto, unfolding(crate::specs::Verdicts::promise))]
pub fn push_promise(
    page: &mut Page,
    scale: Scale,
    surety: Surety,
    rivals: Rivals,
    card: Card,
    lines: &[Line],
) -> Result<(), AllocError>
    ensures { OnOk result (page.new ≡ page.old ++ promise scale surety rivals card lines.now) }
{
    let kept = best_from(card, lines);
    let best = best_of(lines);
    let is_sure = surety.is_sure(kept);
    page.own(makes(is_sure))?;
    push_share(page, scale, kept)?;
    push_how_sure(page, is_sure, surety.moves)?;
    page.own(others(rivals, kept == best))?;
    push_least(page, is_sure, surety.least)?;
    page.own(b"</p>\n")
}

/// Whether lines with this many moves plan every card that declarer's side has left.
pub fn plans_all(position: &Position, moves: u8) -> bool
    ensures { result ≡ plans_all position.now moves }
{
    let left = u16::from(position.declarer.count()) + u16::from(position.dummy.count());
    left <= u16::from(moves)
}

/// Adds how far the lines are planned, and what planning more cards may change of what the card
/// keeps.
#[tactic(auto, unfolding(crate::specs::Verdicts::horizon))]
pub fn push_horizon(page: &mut Page, surety: Surety, kept: u32) -> Result<(), AllocError>
    ensures { OnOk result (page.new ≡ page.old ++ horizon surety kept) }
{
    if surety.all {
        return page.own(ALL_PLANNED);
    }
    let end = if surety.is_sure(kept) {
        SURE_END
    } else {
        PLANNED_END
    };
    page.number_between(PLANNED, u64::from(surety.moves), end)
}
