//! The page, part by part.
ghost use Rattle.std.specs.Prelude.{◌≡◌, ◌++◌, ℕ, false, true, sum, All, IfOk, OnOk, length};
ghost use Rattle.std.specs.Prelude.{is_some, option_copied};
ghost use Rattle.trick_rules.specs.Positions.{to_play};
ghost use Rattle.trick_rules.specs.Play.{is_declarers, is_over};
ghost use Rattle.strategy_games.specs.Plans.{Fits};
ghost use Rattle.strategy_tree.specs.Bridge.{bridge};
ghost use Rattle.pbn_deal.specs.Tags.{tag_named};
ghost use Rattle.am_report.specs.Reading.{report_of};
ghost use Rattle.page_text.specs.Frames.{told_by};
ghost use Rattle.page_report.specs.BesideLines.{AreBeside};
ghost use Rattle.page_report.specs.ReportPages.{scale_of, is_weighed, value_of as value_in};
ghost use Rattle.page_report.specs.ReportPages.{tags_of, rivals_of, row_in, least_of, surety_of};
ghost use Rattle.page_report.specs.ReportPages.{beliefs_of as beliefs_at, verdict, top, play};
ghost use Rattle.page_report.specs.ReportPages.{all_layouts, middle, page as page_of, IsReportPage};

use crate::beliefs::beliefs_of;
use crate::besides::besides_of;
use crate::dropped::push_left_out;
use crate::lines::lines_of;
use crate::plays::played_lines;
use crate::refuted::refuted_of;
use am_report::{ReadReport, Version};
use byte_text::Text;
use card_brackets::{CardRow, CardTable};
use card_sets::{Card, Compass};
use html_text::Page;
use layout_list::Kept;
use page_text::{
    Belief, Beside, Layouts, Line, PlayedLine, Refutation, Rivals, Scale, Surety, Tags, best_from,
    plans_all, push_cards, push_end, push_facts, push_headline, push_horizon, push_kept_reason,
    push_layouts, push_lines, push_navigation, push_numbers, push_partings, push_promise,
    push_report, push_sampling, push_start, push_table, push_trade_offs,
};
use pbn_deal::Board;
use pbn_text::{Game, Tag};
use std::alloc::{AllocError, Global};
use trick_rules::Position;
use win_vectors::{Weights, WinVector};

/// A report at a root, to be shown.
#[derive(Drop)]
pub struct Shown<'a> {
    /// The deal file's first game, whose tags are shown.
    pub game: &'a Game,
    /// Its board.
    pub board: &'a Board,
    /// The layouts that the play allows.
    pub kept: &'a Kept,
    pub report: &'a ReadReport,
    /// The bytes that the report was read from.
    pub bytes: &'a Text,
    /// Every legal card at the root, if the report was searched for here: then it has the best
    /// lines of all.
    pub cards: Option<&'a CardTable>,
}

// What all layouts weigh together.
fn weight_of_all(weights: &Weights) -> u32
    ensures { result ≡ sum weights.now }
{
    weights.total(WinVector::all(weights.width()))
}

fn is_weighed(version: Version) -> bool
    ensures { result ≡ is_weighed version }
{
    matches!(version, Version::Weights)
}

fn scale_of(kept: &Kept, version: Version) -> Scale
    ensures { result ≡ scale_of kept.now version }
{
    Scale {
        total: weight_of_all(&kept.weights),
        by_weight: is_weighed(version),
    }
}

// The first tag of a name.
fn find_tag<'a>(game: &'a Game, name: &[u8]) -> Option<&'a Tag>
    ensures { option_copied result ≡ tag_named name.now game.now }
{
    game.tags.iter().find(|tag| tag.name.bytes() == name)
}

// Its value.
fn value_of<'a>(game: &'a Game, name: &[u8]) -> Option<&'a [u8]>
    ensures { option_copied result ≡ value_in name.now game.now }
{
    match find_tag(game, name) {
        Some(tag) => Some(tag.value.bytes()),
        None => None,
    }
}

fn tags_of(game: &Game) -> Tags<'_>
    ensures { told_by result ≡ tags_of game.now }
{
    Tags {
        event: value_of(game, b"Event"),
        board: value_of(game, b"Board"),
        contract: value_of(game, b"Contract"),
    }
}

// The row of a card, if it has one.
fn row_in(card: Card, table: &CardTable) -> Option<&CardRow>
    ensures { option_copied result ≡ row_in card table.now }
{
    table.rows.iter().find(|row| row.card == card)
}

// The least that a card is known to win.
fn least_of(card: Card, cards: Option<&CardTable>) -> Option<u32>
    ensures { result ≡ least_of card (option_copied cards.entry) }
{
    match row_in(card, cards?) {
        Some(row) => Some(row.least),
        None => None,
    }
}

// How far the lines of a report are planned, and what is known of its card.
fn surety_of(kept: &Kept, report: &ReadReport, cards: Option<&CardTable>) -> Surety
    ensures { result
        ≡ surety_of kept.now (report_of report.now) (option_copied cards.entry) }
{
    Surety {
        moves: report.moves,
        all: plans_all(kept.node.position(), report.moves),
        least: least_of(report.card, cards),
    }
}

// Whether a report has the best lines of all that plan as many cards: it was searched for.
fn has_best(cards: Option<&CardTable>) -> bool
    ensures { result ≡ is_some (option_copied cards.entry) }
{
    matches!(cards, Some(_))
}

// The lines that make no more than the best of the report.
fn rivals_of(is_best: bool, position: &Position, moves: u8) -> Rivals
    ensures { result ≡ rivals_of is_best position.now moves }
{
    if !is_best {
        Rivals::Reported
    } else if plans_all(position, moves) {
        Rivals::All
    } else {
        Rivals::Planned
    }
}

#[tactic(auto, unfolding(crate::specs::ReportPages::verdict))]
fn push_verdict(
    page: &mut Page,
    cards: Option<&CardTable>,
    declarer: Compass,
    kept: &Kept,
    report: &ReadReport,
    lines: &[Line],
) -> Result<(), AllocError>
    ensures { OnOk result (page.new ≡ page.old ++ verdict (option_copied cards.entry) declarer
        kept.now (report_of report.now) lines.now) }
{
    let position = kept.node.position();
    let scale = scale_of(kept, report.version);
    let surety = surety_of(kept, report, cards);
    let rivals = rivals_of(has_best(cards), position, report.moves);
    push_headline(page, position, report.card)?;
    push_promise(page, scale, surety, rivals, report.card, lines)?;
    push_kept_reason(page, declarer, report.card, lines)?;
    push_horizon(page, surety, best_from(report.card, lines))
}

#[tactic(auto, unfolding(crate::specs::ReportPages::top))]
fn push_top(page: &mut Page, shown: &Shown, lines: &[Line]) -> Result<(), AllocError>
    ensures { OnOk result (page.new ≡ page.old ++ top shown.now.game.now shown.now.board.now
        shown.now.kept.now (report_of shown.now.report.now)
        (option_copied shown.now.cards) lines.now) }
{
    let board = shown.board;
    let kept = shown.kept;
    let report = shown.report;
    push_start(page, report.card, kept.node.width())?;
    push_facts(
        page,
        &tags_of(shown.game),
        board.compass(kept.node.position().to_play()),
    )?;
    push_verdict(page, shown.cards, board.declarer(), kept, report, lines)?;
    push_navigation(page)
}

// The lines of a report, where they part, what plain sampling believes, why it isn't true, and the
// first lines played out.
#[derive(Drop)]
struct Found {
    lines: Vec<Line>,
    besides: Vec<Beside>,
    beliefs: Vec<Belief>,
    refuted: Vec<Option<Refutation>>,
    played: Vec<PlayedLine>,
}

#[tactic(auto, unfolding(crate::specs::ReportPages::play))]
fn push_play(
    page: &mut Page,
    declarer: Compass,
    kept: &Kept,
    report: &ReadReport,
    found: &Found,
) -> Result<(), AllocError>
    requires { found.now.beliefs.items ≡ beliefs_at kept.now }
    ensures { OnOk result (page.new
        ≡ page.old ++ play declarer kept.now (report_of report.now) found.now.lines.items
        found.now.refuted.items) }
{
    let scale = scale_of(kept, report.version);
    let width = kept.node.width();
    push_trade_offs(page, width, &found.lines)?;
    push_sampling(
        page,
        scale,
        width,
        &found.beliefs,
        &found.lines,
        &found.refuted,
    )?;
    push_lines(page, declarer, scale, &found.lines)
}

#[tactic(auto, unfolding(crate::specs::ReportPages::all_layouts))]
fn push_all_layouts(page: &mut Page, shown: &Shown, found: &Found) -> Result<(), AllocError>
    requires { length shown.now.kept.now.weights ≡ length shown.now.kept.now.node.lefts }
    ensures { OnOk result (page.new ≡ page.old ++ all_layouts shown.now.board.now
        shown.now.kept.now (report_of shown.now.report.now) found.now.lines.items
        found.now.played.items) }
{
    let kept = shown.kept;
    let layouts = Layouts {
        declarer: shown.board.declarer(),
        node: &kept.node,
        by_weight: is_weighed(shown.report.version),
        weights: &kept.weights,
        lines: &found.lines,
        played: &found.played,
    };
    push_layouts(page, &layouts)?;
    push_numbers(page, &kept.numbers)?;
    push_left_out(page, &kept.dropped)
}

#[tactic(auto, unfolding(crate::specs::ReportPages::middle))]
fn push_middle(page: &mut Page, shown: &Shown, found: &Found) -> Result<(), AllocError>
    requires weighed { length shown.now.kept.now.weights ≡ length shown.now.kept.now.node.lefts }
    requires beliefs { found.now.beliefs.items ≡ beliefs_at shown.now.kept.now }
    ensures { OnOk result (page.new ≡ page.old ++ middle shown.now.board.now
        shown.now.kept.now (report_of shown.now.report.now) found.now.lines.items
        found.now.refuted.items found.now.besides.items found.now.played.items) }
{
    let kept = shown.kept;
    let declarer = shown.board.declarer();
    push_table(page, declarer, &kept.node)?;
    push_play(page, declarer, kept, shown.report, found)?;
    push_partings(
        page,
        declarer,
        kept.node.position(),
        found.lines.len(),
        &found.besides,
    )?;
    push_all_layouts(page, shown, found)
}

#[tactic(auto, unfolding(crate::specs::ReportPages::page))]
fn page_of(alloc: Global, shown: &Shown, found: &Found) -> Result<Page, AllocError>
    requires weighed { length shown.now.kept.now.weights ≡ length shown.now.kept.now.node.lefts }
    requires beliefs { found.now.beliefs.items ≡ beliefs_at shown.now.kept.now }
    ensures { IfOk result (λ page. page ≡ page_of shown.now.game.now shown.now.board.now
        shown.now.kept.now (report_of shown.now.report.now) shown.now.bytes.now
        (option_copied shown.now.cards) found.now.lines.items found.now.refuted.items
        found.now.besides.items found.now.played.items) }
{
    let bytes = shown.bytes;
    let report = shown.report;
    let scale = scale_of(shown.kept, report.version);
    let mut page = Page::new(alloc);
    push_top(&mut page, shown, &found.lines)?;
    push_cards(&mut page, scale, report.card, shown.cards)?;
    push_middle(&mut page, shown, found)?;
    push_report(&mut page, bytes.bytes())?;
    push_end(&mut page)?;
    Ok(page)
}

/// The page of a report at a root at which declarer's side is to play.
///
/// Each strategy is put into words, and each told plan, cut down at the node, is the report's plan.
/// The first strategy and each of the next five are compared, and the first four are played out in
/// each layout, against a defence that beats them if there is one.
/// The report itself stands at the end of the page, byte for byte.
pub fn report_page(alloc: Global, shown: &Shown) -> Result<Text, AllocError>
    requires ours { is_declarers (to_play shown.now.kept.now.node.position) ≡ true }
    requires goes_on { is_over shown.now.kept.now.node.position ≡ false }
    requires weighed { length shown.now.kept.now.weights ≡ length shown.now.kept.now.node.lefts }
    requires fit { All (λ read.
        Fits bridge read.entry.plan shown.now.kept.now.node shown.now.report.now.moves)
        shown.now.report.now.entries.items }
    ensures { IfOk result (IsReportPage shown.now.game.now shown.now.board.now
        shown.now.kept.now (report_of shown.now.report.now) shown.now.bytes.now
        (option_copied shown.now.cards)) }
{
    let board = shown.board;
    let kept = shown.kept;
    let report = shown.report;
    let lines = lines_of(alloc, board.declarer(), &kept.node, &report.entries)?;
    let beliefs = beliefs_of(alloc, kept)?;
    let found = Found {
        refuted: refuted_of(alloc, &kept.node, &report.entries, &lines, &beliefs)?,
        lines,
        besides: besides_of(alloc, &report.entries)?,
        beliefs,
        played: played_lines(alloc, &kept.node, &report.entries)?,
    };
    let page = page_of(alloc, shown, &found)?;
    page.written()
}
