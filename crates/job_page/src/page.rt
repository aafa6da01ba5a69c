//! A report that is judged, and then shown.
ghost use Rattle.std.specs.Prelude.{◌≡◌, ◌<◌, ◌-◌, ◌^◌, true, None, Ok, length, option_copied, IfOk, IfErr};
ghost use Rattle.am_report.specs.Reading.{report_of, report_read};
ghost use Rattle.am_answer.specs.Answers.{board_in, has_choice};
ghost use Rattle.page_report.specs.Named.{names_own_card as is_own};
ghost use Rattle.job_page.specs.PageJob.{card_line as line_of_card, IsForeignCard, IsPage};
ghost use Rattle.job_page.specs.PageJob.{IsPageRefusal};

use am_answer::{Root, Status};
use am_report::{ReadReport, ReportKind};
use byte_text::{Text, line_number};
use card_brackets::CardTable;
use job_lines::games_in;
use job_told::good_report;
use page_report::{Shown, names_own_card, report_page};
use std::alloc::Global;

// The number of the line of a report that names the card: the last but one.
fn card_line(bytes: &[u8]) -> u32
    requires { length bytes.now < 2 ^ 32 - 1 }
    ensures { result ≡ line_of_card bytes.now }
{
    line_number(bytes, bytes.len().saturating_sub(1)).saturating_sub(1)
}

// The card that a report from a file names is its own. `check` doesn't judge it, and a page tells
// the reader to play it.
fn judge_card(
    root: &Root,
    bytes: &Text,
    report: &ReadReport,
    cards: Option<&CardTable>,
) -> Result<(), Status>
    requires read { report_read bytes.now ≡ Ok (report_of report.now) }
    requires short { length bytes.now < 2 ^ 32 - 1 }
    ensures own { IfOk result (λ _. option_copied cards.entry ≡ None
        → is_own root.now.kept.node (report_of report.now) ≡ true) }
    ensures foreign { IfErr result
        (IsForeignCard root.now bytes.now (option_copied cards.entry)) }
{
    if cards.is_some() || names_own_card(&root.kept.node, report) {
        Ok(())
    } else {
        Err(Status::BadReport(card_line(bytes.bytes()), ReportKind::Card))
    }
}

/// A report at a root as a page of HTML, with the event, the board and the contract of the deal
/// file's first game. The report is judged first, and refused as `check` refuses it. If it was
/// searched for here, the page shows every legal card too, and promises that no line makes more.
///
/// Errors: those of `check`; `BadReport` with `ReportKind::Card` if a report from a file names a
/// card that can't be played, or that none of its lines begins with; `Memory`.
#[tactic(auto, using(job_lines::proofs::GoodLines::refused_on, crate::proofs::GoodPage::good_page))]
pub fn tell_page(
    alloc: Global,
    deal: &Text,
    root: &Root,
    bytes: &Text,
    cards: Option<&CardTable>,
) -> Result<Text, Status>
    requires board { board_in deal.now ≡ Ok root.now.board }
    requires turn { has_choice root.now.kept.node ≡ true }
    requires weighed { length root.now.kept.weights ≡ length root.now.kept.node.lefts }
    requires deal_short { length deal.now < 2 ^ 32 - 1 }
    requires report_short { length bytes.now < 2 ^ 32 - 1 }
    ensures text { IfOk result
        (IsPage deal.now root.now bytes.now (option_copied cards.entry)) }
    ensures refused { IfErr result
        (IsPageRefusal root.now bytes.now (option_copied cards.entry)) }
{
    let report = good_report(alloc, root, bytes)?;
    judge_card(root, bytes, &report, cards)?;
    let games = games_in(alloc, deal)?;
    let shown = Shown {
        game: &games[0],
        board: &root.board,
        kept: &root.kept,
        report: &report,
        bytes,
        cards,
    };
    Ok(report_page(alloc, &shown)?)
}
