//! Every legal card of a root, side by side.
ghost use Rattle.std.specs.Prelude.{◌≡◌, ◌++◌, flat_map, OnOk, option_copied};
ghost use Rattle.page_text.specs.Cards.{card_end, row_end, card_cell, bounds, card_row};
ghost use Rattle.page_text.specs.Cards.{cards_head, card_rows, cards as cards_known};

use crate::markup::{
    CARDS, CARDS_HEAD, FIGURES_OF, FIRST_CARD, OPEN, ROW, ROWS, ROWS_END, SETTLED, TO_PLAY, WEIGHT,
};
use crate::signs::push_card;
use crate::verdict::{Scale, unit};
use card_brackets::{CardRow, CardTable};
use card_sets::Card;
use html_text::Page;
use std::alloc::AllocError;

// The end of a card's cell, which says whether it is the one to play.
fn card_end(is_to_play: bool) -> &'static [u8]
    ensures { result.now ≡ card_end is_to_play }
{
    match is_to_play {
        true => TO_PLAY,
        false => FIRST_CARD,
    }
}

// The end of a row, which says whether its bounds are equal.
fn row_end(row: &CardRow) -> &'static [u8]
    ensures { result.now ≡ row_end row.now }
{
    if row.is_final() { SETTLED } else { OPEN }
}

#[tactic(auto, unfolding(crate::specs::Cards::card_cell))]
fn push_card_cell(page: &mut Page, to_play: Card, card: Card) -> Result<(), AllocError>
    ensures { OnOk result (page.new ≡ page.old ++ card_cell to_play card) }
{
    page.own(ROW)?;
    push_card(page, card)?;
    page.own(card_end(card == to_play))
}

// Adds what is known of a card.
#[tactic(auto, unfolding(crate::specs::Cards::bounds))]
fn push_bounds(page: &mut Page, row: &CardRow) -> Result<(), AllocError>
    ensures { OnOk result (page.new ≡ page.old ++ bounds row.now) }
{
    page.number(u64::from(row.most))?;
    page.number_between(WEIGHT, u64::from(row.least), WEIGHT)?;
    page.number(u64::from(row.sampled))?;
    page.own(row_end(row))
}

#[tactic(auto, unfolding(crate::specs::Cards::card_row))]
fn push_row(page: &mut Page, to_play: Card, row: &CardRow) -> Result<(), AllocError>
    ensures { OnOk result (page.new ≡ page.old ++ card_row to_play row.now) }
{
    push_card_cell(page, to_play, row.card)?;
    push_bounds(page, row)
}

fn push_rows(page: &mut Page, to_play: Card, table: &CardTable) -> Result<(), AllocError>
    ensures { OnOk result
        (page.new ≡ page.old ++ flat_map (card_row to_play) table.now.rows.items) }
{
    for row in &table.rows {
        push_row(page, to_play, row)?;
    }
    Ok(())
}

#[tactic(auto, unfolding(crate::specs::Cards::cards_head))]
fn push_head(page: &mut Page, scale: Scale, moves: u8) -> Result<(), AllocError>
    ensures { OnOk result (page.new ≡ page.old ++ cards_head scale moves) }
{
    page.number_between(CARDS, u64::from(moves), FIGURES_OF)?;
    page.number(u64::from(scale.total))?;
    page.own(unit(scale))?;
    page.own(CARDS_HEAD)
}

#[tactic(auto, unfolding(crate::specs::Cards::card_rows))]
fn push_table(
    page: &mut Page,
    scale: Scale,
    to_play: Card,
    table: &CardTable,
) -> Result<(), AllocError>
    ensures { OnOk result (page.new ≡ page.old ++ card_rows scale to_play table.now) }
{
    push_head(page, scale, table.moves)?;
    page.own(ROWS)?;
    push_rows(page, to_play, table)?;
    page.own(ROWS_END)
}

/// Adds every legal card with what is known of it, if that is known: in card order the bounds of
/// what is won after it, what sampling believes, and whether more planned cards change nothing. The
/// card to play is marked.
pub fn push_cards(
    page: &mut Page,
    scale: Scale,
    to_play: Card,
    cards: Option<&CardTable>,
) -> Result<(), AllocError>
    ensures { OnOk result
        (page.new ≡ page.old ++ cards_known scale to_play (option_copied cards.entry)) }
{
    match cards {
        Some(table) => push_table(page, scale, to_play, table),
        None => Ok(()),
    }
}
