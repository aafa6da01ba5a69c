//! What plain sampling believes, next to the lines.
ghost use Rattle.std.specs.Prelude.{◌≡◌, ◌++◌, flat_map, OnOk};
ghost use Rattle.page_text.specs.Beliefs.{most_believed, favourite, favourites, summary, has_line};
ghost use Rattle.page_text.specs.Beliefs.{shortfall, best_line, figures, belief_row};
ghost use Rattle.page_text.specs.Beliefs.{beliefs_table, sampling};

use crate::lines::{Line, push_cells, push_columns};
use crate::markup::{
    BELIEFS, BELIEFS_END, BELIEVED, FIRST_CARD, NO_LINE_MAKES, ROW, ROWS, SAMPLING, SECTION_END,
    WEIGHT,
};
use crate::refutations::{Refutation, push_refutations};
use crate::signs::push_card;
use crate::verdict::{Scale, begins_with, best_from, best_of, push_share};
use card_sets::Card;
use html_text::Page;
use std::alloc::AllocError;
use win_vectors::WinVector;

/// What plain sampling believes of a card.
#[derive(Clone, Copy, Debug)]
pub struct Belief {
    pub card: Card,
    /// The layouts in which double dummy makes the contract after it.
    pub vector: WinVector,
    /// How many they are, or what they weigh.
    pub weight: u32,
}

// The most that sampling believes of a card.
fn most_believed(beliefs: &[Belief]) -> u32
    ensures { result ≡ most_believed beliefs.now }
{
    let mut most = 0;
    for belief in beliefs {
        most = most.max(belief.weight);
    }
    most
}

fn push_favourite(page: &mut Page, most: u32, belief: &Belief) -> Result<(), AllocError>
    ensures { OnOk result (page.new ≡ page.old ++ favourite most belief.now) }
{
    if belief.weight != most {
        return Ok(());
    }
    push_card(page, belief.card)?;
    page.own(b" ")
}

fn push_each_favourite(page: &mut Page, most: u32, beliefs: &[Belief]) -> Result<(), AllocError>
    ensures { OnOk result (page.new ≡ page.old ++ flat_map (favourite most) beliefs.now) }
{
    for belief in beliefs {
        push_favourite(page, most, belief)?;
    }
    Ok(())
}

// Adds the cards of which sampling believes the most, and how much that is.
#[tactic(auto, unfolding(crate::specs::Beliefs::favourites))]
fn push_favourites(page: &mut Page, scale: Scale, beliefs: &[Belief]) -> Result<(), AllocError>
    ensures { OnOk result (page.new ≡ page.old ++ favourites scale beliefs.now) }
{
    let most = most_believed(beliefs);
    push_each_favourite(page, most, beliefs)?;
    page.own(BELIEVED)?;
    push_share(page, scale, most)
}

#[tactic(auto, unfolding(crate::specs::Beliefs::summary))]
fn push_summary(
    page: &mut Page,
    scale: Scale,
    beliefs: &[Belief],
    lines: &[Line],
) -> Result<(), AllocError>
    ensures { OnOk result (page.new ≡ page.old ++ summary scale beliefs.now lines.now) }
{
    page.own(SAMPLING)?;
    push_favourites(page, scale, beliefs)?;
    page.own(NO_LINE_MAKES)?;
    push_share(page, scale, best_of(lines))
}

fn has_line(card: Card, lines: &[Line]) -> bool
    ensures { result ≡ has_line card lines.now }
{
    lines.iter().any(|line| begins_with(card, line.begins))
}

fn shortfall(best: u32, believed: u32) -> &'static [u8]
    ensures { result.now ≡ shortfall best believed }
{
    if best < believed {
        b" &#9660;<i>less than believed</i></td>"
    } else {
        b"</td>"
    }
}

// Adds what the best of the lines makes that begin with the card.
#[tactic(auto, unfolding(crate::specs::Beliefs::best_line))]
fn push_best_line(page: &mut Page, lines: &[Line], belief: &Belief) -> Result<(), AllocError>
    ensures { OnOk result (page.new ≡ page.old ++ best_line lines.now belief.now) }
{
    if !has_line(belief.card, lines) {
        return page.own(b"&#8211;<i>no line</i></td>");
    }
    let best = best_from(belief.card, lines);
    page.number(u64::from(best))?;
    page.own(shortfall(best, belief.weight))
}

#[tactic(auto, unfolding(crate::specs::Beliefs::figures))]
fn push_figures(page: &mut Page, lines: &[Line], belief: &Belief) -> Result<(), AllocError>
    ensures { OnOk result (page.new ≡ page.old ++ figures lines.now belief.now) }
{
    page.own(ROW)?;
    push_card(page, belief.card)?;
    page.own(FIRST_CARD)?;
    page.number(u64::from(belief.weight))?;
    page.own(WEIGHT)?;
    push_best_line(page, lines, belief)
}

#[tactic(auto, unfolding(crate::specs::Beliefs::belief_row))]
fn push_belief(page: &mut Page, lines: &[Line], belief: &Belief) -> Result<(), AllocError>
    ensures { OnOk result (page.new ≡ page.old ++ belief_row lines.now belief.now) }
{
    push_figures(page, lines, belief)?;
    push_cells(page, belief.vector)?;
    page.own(b"</tr>\n")
}

fn push_beliefs(page: &mut Page, lines: &[Line], beliefs: &[Belief]) -> Result<(), AllocError>
    ensures { OnOk result (page.new ≡ page.old ++ flat_map (belief_row lines.now) beliefs.now) }
{
    for belief in beliefs {
        push_belief(page, lines, belief)?;
    }
    Ok(())
}

// Adds a row for each card, and this many columns, one for each layout.
#[tactic(auto, unfolding(crate::specs::Beliefs::beliefs_table))]
fn push_table(
    page: &mut Page,
    width: u16,
    beliefs: &[Belief],
    lines: &[Line],
) -> Result<(), AllocError>
    ensures { OnOk result (page.new ≡ page.old ++ beliefs_table width beliefs.now lines.now) }
{
    page.own(BELIEFS)?;
    push_columns(page, width)?;
    page.own(ROWS)?;
    push_beliefs(page, lines, beliefs)?;
    page.own(BELIEFS_END)
}

/// Adds what plain sampling believes of each card, next to the best line that begins with it: a row
/// for each, and this many columns, one for each layout. Below it stands why a belief isn't true.
#[tactic(auto, unfolding(crate::specs::Beliefs::sampling))]
pub fn push_sampling(
    page: &mut Page,
    scale: Scale,
    width: u16,
    beliefs: &[Belief],
    lines: &[Line],
    refuted: &[Option<Refutation>],
) -> Result<(), AllocError>
    ensures { OnOk result
        (page.new ≡ page.old ++ sampling scale width beliefs.now lines.now refuted.now) }
{
    push_summary(page, scale, beliefs, lines)?;
    push_table(page, width, beliefs, lines)?;
    push_refutations(page, refuted)?;
    page.own(SECTION_END)
}
