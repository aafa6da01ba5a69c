//! The strategies of a report as lines of a page.
ghost use Rattle.std.specs.Prelude.{◌≡◌, ℕ, IfOk};
ghost use Rattle.strategy_games.specs.Plans.{Fits};
ghost use Rattle.strategy_tree.specs.Bridge.{bridge};
ghost use Rattle.strategy_tree.specs.PlanMeaning.{plan_of};
ghost use Rattle.told_plans.specs.Told.{Told};
ghost use Rattle.told_layouts.specs.Looking.{step_layouts, reached};
ghost use Rattle.told_words.specs.Words.{told_text};
ghost use Rattle.told_words.specs.Reached.{lines_reached};
ghost use Rattle.told_report.specs.ToldReport.{IsToldOf};
ghost use Rattle.page_report.specs.BesideLines.{FitNode};
ghost use Rattle.page_report.specs.ReportPages.{first_card as first_card_of, line_of, AreLines};

use am_report::ReadEntry;
use byte_text::Text;
use card_sets::{Card, Compass};
use layout_facts::what_decides;
use page_text::{Line, Reached};
use std::alloc::{AllocError, Global};
use strategy_tree::Plan;
use told_plans::ToldPlan;
use told_words::{Strategy, Writer, lines_reached};
use trick_rules::Node;

/// The first card of a strategy.
pub fn first_card(plan: &Plan) -> Option<Card>
    ensures { result ≡ first_card_of (plan_of plan.now) }
{
    match plan {
        Plan::Play(card, _) => Some(*card),
        Plan::Stop | Plan::Hear(_) => None,
    }
}

// A strategy in words, and the layouts that can reach each line of these.
fn words_of(
    alloc: Global,
    declarer: Compass,
    node: &Node,
    read: &ReadEntry,
) -> Result<(Text, Reached), AllocError>
    requires fits { (moves : ℕ) × Fits bridge read.now.entry.plan node.now moves }
    ensures { IfOk result (λ line. (told : Told) × IsToldOf node.now read.now told
        × (line.0 ≡ told_text declarer
        (step_layouts read.now.entry.plan node.now) told node.now)
        × (line.1 ≡ lines_reached (reached read.now.entry.plan node.now) told)) }
{
    let plan = &read.entry.plan;
    let strategy = Strategy { plan, node };
    let told = ToldPlan::of(alloc, plan)?;
    let mut writer = Writer::new(alloc);
    writer.push_told(declarer, &strategy, &told)?;
    let reached = lines_reached(alloc, &strategy, &told)?;
    Ok((writer.finish(), Reached::by(reached)))
}

// A strategy by its number.
fn line_of(
    alloc: Global,
    declarer: Compass,
    node: &Node,
    number: u64,
    read: &ReadEntry,
) -> Result<Line, AllocError>
    requires fits { (moves : ℕ) × Fits bridge read.now.entry.plan node.now moves }
    ensures { IfOk result (λ line. (told : Told) × IsToldOf node.now read.now told
        × (line ≡ line_of declarer node.now number read.now told)) }
{
    let (words, reached) = words_of(alloc, declarer, node, read)?;
    Ok(Line {
        number,
        vector: read.entry.vector,
        weight: read.weight,
        begins: first_card(&read.entry.plan),
        reason: what_decides(alloc, node, read.entry.vector)?,
        words,
        reached,
    })
}

/// The strategies, numbered from 1, with their words.
pub fn lines_of(
    alloc: Global,
    declarer: Compass,
    node: &Node,
    entries: &[ReadEntry],
) -> Result<Vec<Line>, AllocError>
    requires fit { FitNode node.now entries.now }
    ensures { IfOk result (λ lines. AreLines declarer node.now entries.now lines.items) }
{
    let mut lines = Vec::new(alloc);
    for (place, read) in entries.iter().enumerate() {
        let line = line_of(alloc, declarer, node, place as u64 + 1, read)?;
        lines.push(line)?;
    }
    Ok(lines)
}
