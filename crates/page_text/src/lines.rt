//! The lines of a report side by side, and in words.
ghost use Rattle.std.specs.Prelude.{◌≡◌, ◌++◌, flat_map, OnOk};
ghost use Rattle.std.specs.List.{range_with_len};
ghost use Rattle.html_text.specs.Pages.{own};
ghost use Rattle.page_text.specs.Lines.{cell, column, link, first_card, row_start, row, trade_offs};
ghost use Rattle.page_text.specs.Lines.{opening, line_start, line_words, line_pieces, lines_pieces};

use crate::markup::{
    COLUMN, DECIDED, FIRST_CARD, LINE, LINES, LINK, ROW, ROWS, ROWS_END, SECTION_END, SUMMARY,
    TRADE_OFFS, WEIGHT, WORDS, WORDS_END,
};
use crate::reached::Reached;
use crate::reasons::push_decided;
use crate::shared::push_each_numbered;
use crate::signs::push_card;
use crate::steps::push_steps;
use crate::verdict::{Scale, push_share};
use byte_text::Text;
use card_sets::{Card, Compass};
use html_text::Page;
use layout_facts::Reason;
use std::alloc::AllocError;
use win_vectors::WinVector;

/// A line of a report.
#[derive(Debug, Drop)]
pub struct Line {
    /// Its number, from 1.
    pub number: u64,
    /// The layouts that it makes.
    pub vector: WinVector,
    /// How many they are, or what they weigh.
    pub weight: u32,
    /// Its first card; `None` if it stops at once.
    pub begins: Option<Card>,
    /// What decides which layouts it makes, if a fact or two do.
    pub reason: Option<Reason>,
    /// The line in words.
    pub words: Text,
    /// The layouts that can reach each line of these words.
    pub reached: Reached,
}

fn sign(made: bool) -> &'static [u8]
    ensures { own result.now ≡ cell made }
{
    if made {
        b"<td class='y'>&#10003;<i>made</i></td>"
    } else {
        b"<td class='x'>&#10007;<i>fails</i></td>"
    }
}

/// Adds a cell for each layout.
pub fn push_cells(page: &mut Page, vector: WinVector) -> Result<(), AllocError>
    ensures { OnOk result (page.new ≡ page.old ++ flat_map cell vector) }
{
    for place in 0..vector.width() {
        page.own(sign(vector.get(place)))?;
    }
    Ok(())
}

/// Adds the numbers of this many layouts, each above its column.
pub fn push_columns(page: &mut Page, width: u16) -> Result<(), AllocError>
    ensures { OnOk result (page.new ≡ page.old ++ flat_map column (range_with_len 1 width)) }
{
    push_each_numbered(page, width, COLUMN, b"</th>")
}

/// Adds a line by its number, as a link to its words.
#[tactic(auto, unfolding(crate::specs::Lines::link))]
pub fn push_link(page: &mut Page, number: u64) -> Result<(), AllocError>
    ensures { OnOk result (page.new ≡ page.old ++ link number) }
{
    page.own(LINK)?;
    page.number(number)?;
    page.own(b"'>")?;
    page.number(number)?;
    page.own(b"</a>")
}

fn push_first_card(page: &mut Page, begins: Option<Card>) -> Result<(), AllocError>
    ensures { OnOk result (page.new ≡ page.old ++ first_card begins) }
{
    match begins {
        Some(card) => push_card(page, card),
        None => page.own(b"&#8211;"),
    }
}

#[tactic(auto, unfolding(crate::specs::Lines::row_start))]
fn push_row_start(page: &mut Page, line: &Line) -> Result<(), AllocError>
    ensures { OnOk result (page.new ≡ page.old ++ row_start line.now) }
{
    page.own(ROW)?;
    push_link(page, line.number)?;
    page.own(FIRST_CARD)?;
    push_first_card(page, line.begins)?;
    page.own(WEIGHT)
}

// Adds a line: its number, its first card, what it makes, and which layouts.
#[tactic(auto, unfolding(crate::specs::Lines::row))]
fn push_row(page: &mut Page, line: &Line) -> Result<(), AllocError>
    ensures { OnOk result (page.new ≡ page.old ++ row line.now) }
{
    push_row_start(page, line)?;
    page.number(u64::from(line.weight))?;
    page.own(b"</td>")?;
    push_cells(page, line.vector)?;
    page.own(b"</tr>\n")
}

fn push_rows(page: &mut Page, lines: &[Line]) -> Result<(), AllocError>
    ensures { OnOk result (page.new ≡ page.old ++ flat_map row lines.now) }
{
    for line in lines {
        push_row(page, line)?;
    }
    Ok(())
}

/// Adds the lines side by side: a row for each, and this many columns, one
/// for each layout.
#[tactic(auto, unfolding(crate::specs::Lines::trade_offs))]
pub fn push_trade_offs(page: &mut Page, width: u16, lines: &[Line]) -> Result<(), AllocError>
    ensures { OnOk result (page.new ≡ page.old ++ trade_offs width lines.now) }
{
    page.own(TRADE_OFFS)?;
    push_columns(page, width)?;
    page.own(ROWS)?;
    push_rows(page, lines)?;
    page.own(ROWS_END)
}

fn opening(number: u64) -> &'static [u8]
    ensures { result.now ≡ opening number }
{
    if number == 1 {
        b"' open='open'>"
    } else {
        b"'>"
    }
}

#[tactic(auto, unfolding(crate::specs::Lines::line_start))]
fn push_line_start(page: &mut Page, number: u64) -> Result<(), AllocError>
    ensures { OnOk result (page.new ≡ page.old ++ line_start number) }
{
    page.own(LINE)?;
    page.number(number)?;
    page.own(opening(number))?;
    page.own(SUMMARY)?;
    page.number(number)
}

// Adds what decides which layouts a line makes, and its words as nested lists.
#[tactic(auto, unfolding(crate::specs::Lines::line_words))]
fn push_words(page: &mut Page, declarer: Compass, line: &Line) -> Result<(), AllocError>
    ensures { OnOk result (page.new ≡ page.old ++ line_words declarer line.now) }
{
    page.own(WORDS)?;
    push_decided(page, DECIDED, declarer, &line.reason)?;
    push_steps(page, line.number, line.reached.steps(), line.words.bytes())?;
    page.own(WORDS_END)
}

// Adds a line with what it makes, and its words.
#[tactic(auto, unfolding(crate::specs::Lines::line_pieces))]
fn push_line(
    page: &mut Page,
    declarer: Compass,
    scale: Scale,
    line: &Line,
) -> Result<(), AllocError>
    ensures { OnOk result (page.new ≡ page.old ++ line_pieces declarer scale line.now) }
{
    push_line_start(page, line.number)?;
    page.own(b" makes ")?;
    push_share(page, scale, line.weight)?;
    push_words(page, declarer, line)
}

fn push_each_line(
    page: &mut Page,
    declarer: Compass,
    scale: Scale,
    lines: &[Line],
) -> Result<(), AllocError>
    ensures { OnOk result (page.new
        ≡ page.old ++ flat_map (line_pieces declarer scale) lines.now) }
{
    for line in lines {
        push_line(page, declarer, scale, line)?;
    }
    Ok(())
}

/// Adds the lines in words, each folding, the first open.
#[tactic(auto, unfolding(crate::specs::Lines::lines_pieces))]
pub fn push_lines(
    page: &mut Page,
    declarer: Compass,
    scale: Scale,
    lines: &[Line],
) -> Result<(), AllocError>
    ensures { OnOk result (page.new ≡ page.old ++ lines_pieces declarer scale lines.now) }
{
    page.own(LINES)?;
    push_each_line(page, declarer, scale, lines)?;
    page.own(SECTION_END)
}
