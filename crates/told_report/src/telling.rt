//! The strategies of a report, one after another.
ghost use Rattle.std.specs.Prelude.{◌≡◌, ◌++◌, ℕ, All, length, IfOk, OnOk};
ghost use Rattle.strategy_games.specs.Plans.{Fits};
ghost use Rattle.strategy_tree.specs.Bridge.{bridge};
ghost use Rattle.told_plans.specs.Told.{Told};
ghost use Rattle.told_report.specs.ToldReport.{strategy_text, IsToldOf, AreWords};

use am_report::{ReadEntry, vector_text};
use byte_text::Text;
use card_sets::Compass;
use std::alloc::{AllocError, Global};
use told_plans::ToldPlan;
use told_words::{Strategy, Writer};
use trick_rules::Node;
use win_vectors::Weights;

/// The strategies of a report in words, each after its vector with how many layouts it wins, or
/// their weight.
///
/// The node and the weights are those of the report, with declarer at this place of the table. A
/// told plan loses nothing: cut down at the node, it is the report's plan.
pub fn tell_strategies(
    alloc: Global,
    declarer: Compass,
    weights: &Weights,
    node: &Node,
    entries: &[ReadEntry],
) -> Result<Text, AllocError>
    requires widths { All (λ read. length weights.now ≡ length read.entry.vector) entries.now }
    requires fit { All (λ read. (moves : ℕ) × Fits bridge read.entry.plan node.now moves)
        entries.now }
    ensures { IfOk result (AreWords declarer weights.now node.now entries.now) }
{
    let mut writer = Writer::new(alloc);
    for read in entries {
        push_strategy(alloc, &mut writer, declarer, weights, node, read)?;
    }
    Ok(writer.finish())
}

// Appends one of them.
fn push_strategy(
    alloc: Global,
    writer: &mut Writer,
    declarer: Compass,
    weights: &Weights,
    node: &Node,
    read: &ReadEntry,
) -> Result<(), AllocError>
    requires width { length weights.now ≡ length read.now.entry.vector }
    requires fits { (moves : ℕ) × Fits bridge read.now.entry.plan node.now moves }
    ensures { OnOk result ((told : Told) × IsToldOf node.now read.now told
        × (writer.new
        ≡ writer.old ++ strategy_text declarer weights.now node.now read.now told)) }
{
    let line = vector_text(alloc, weights, read.entry.vector)?;
    let plan = &read.entry.plan;
    let told = ToldPlan::of(alloc, plan)?;
    writer.push(line.bytes())?;
    writer.push_told(declarer, &Strategy { plan, node }, &told)
}
