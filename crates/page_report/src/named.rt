//! The card that a report names.
ghost use Rattle.std.specs.Prelude.{◌≡◌};
ghost use Rattle.strategy_tree.specs.PlanMeaning.{plan_of};
ghost use Rattle.am_report.specs.Reading.{report_of};
ghost use Rattle.page_text.specs.Verdicts.{begins_with as begins};
ghost use Rattle.page_report.specs.ReportPages.{first_card as first_card_of};
ghost use Rattle.page_report.specs.Named.{has_line, names_own_card as is_own};

use crate::lines::first_card;
use am_report::{ReadEntry, ReadReport};
use card_sets::Card;
use strategy_tree::Plan;
use trick_rules::Node;

// Whether a strategy begins with the card or stops before it.
fn begins_with(card: Card, plan: &Plan) -> bool
    ensures { result ≡ begins card (first_card_of (plan_of plan.now)) }
{
    match first_card(plan) {
        None => true,
        Some(first) => first == card,
    }
}

// Whether one of the strategies does.
fn has_line(card: Card, entries: &[ReadEntry]) -> bool
    ensures { result ≡ has_line card entries.now }
{
    entries
        .iter()
        .any(|read| begins_with(card, &read.entry.plan))
}

/// Whether the card that a report names can be played at the node, and one of the report's
/// strategies begins with it or stops before it.
pub fn names_own_card(node: &Node, report: &ReadReport) -> bool
    ensures { result ≡ is_own node.now (report_of report.now) }
{
    node.choices().has(report.card) && has_line(report.card, &report.entries)
}
