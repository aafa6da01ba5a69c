//! The text of what is asked.
ghost use Rattle.std.specs.Prelude.{IfOk, IfErr};
ghost use Rattle.am_answer.specs.Stages.{IsTextFor};
ghost use Rattle.library_text.specs.Requests.{request_of, task_for, IsCallRefusal};
ghost use Rattle.library_text.specs.declared.request.Request.TheVariants as asks;

use crate::parts::{file_text, root_of, search_by};
use crate::request::Request;
use am_answer::{FileWord, Status};
use am_inputs::{read_deal, read_root};
use am_outside::OpenGate;
use byte_text::Text;
use job_check::check_report;
use job_fusion::sample_text_alone;
use job_list::list_layouts;
use job_search::{name_card, solve};
use root_workers::Alone;
use std::alloc::Global;

// The report of a root.
#[tactic(auto, unfolding(crate::specs::Requests::task_for))]
fn report(
    alloc: Global,
    deal: &[u8],
    layouts: &[u8],
    moves: u32,
    nodes: u64,
) -> Result<Text, Status>
    ensures text { IfOk result
        (IsTextFor (task_for (asks.Report deal.now layouts.now moves nodes))) }
    ensures refused { IfErr result
        (IsCallRefusal (task_for (asks.Report deal.now layouts.now moves nodes))) }
{
    let (moves, search) = search_by(moves, nodes)?;
    let root = root_of(alloc, deal, layouts)?;
    solve(&Alone { gate: &OpenGate }, alloc, &root, moves, &search)
}

// The card to play at a root.
#[tactic(auto, unfolding(crate::specs::Requests::task_for))]
fn card(alloc: Global, deal: &[u8], layouts: &[u8], moves: u32, nodes: u64) -> Result<Text, Status>
    ensures text { IfOk result
        (IsTextFor (task_for (asks.Card deal.now layouts.now moves nodes))) }
    ensures refused { IfErr result
        (IsCallRefusal (task_for (asks.Card deal.now layouts.now moves nodes))) }
{
    let (moves, search) = search_by(moves, nodes)?;
    let root = root_of(alloc, deal, layouts)?;
    name_card(&Alone { gate: &OpenGate }, alloc, &root, moves, &search)
}

// What plain sampling believes at a root.
#[tactic(auto, unfolding(crate::specs::Requests::task_for))]
fn sample(alloc: Global, deal: &[u8], layouts: &[u8]) -> Result<Text, Status>
    ensures text { IfOk result (IsTextFor (task_for (asks.Fusion deal.now layouts.now))) }
    ensures refused { IfErr result
        (IsCallRefusal (task_for (asks.Fusion deal.now layouts.now))) }
{
    let root = root_of(alloc, deal, layouts)?;
    Ok(sample_text_alone(alloc, &root)?)
}

// All layouts of a deal.
#[tactic(auto, unfolding(crate::specs::Requests::task_for, am_answer::specs::Answers::listed_in))]
fn list(alloc: Global, deal: &[u8]) -> Result<Text, Status>
    ensures text { IfOk result (IsTextFor (task_for (asks.List deal.now))) }
    ensures refused { IfErr result (IsCallRefusal (task_for (asks.List deal.now))) }
{
    let deal = file_text(alloc, FileWord::Deal, deal)?;
    let board = read_deal(alloc, &deal)?;
    list_layouts(alloc, &board)
}

// Whether the plans of a report are good.
#[tactic(auto, unfolding(crate::specs::Requests::task_for))]
fn check(alloc: Global, deal: &[u8], layouts: &[u8], report: &[u8]) -> Result<Text, Status>
    ensures text { IfOk result
        (IsTextFor (task_for (asks.Check deal.now layouts.now report.now))) }
    ensures refused { IfErr result
        (IsCallRefusal (task_for (asks.Check deal.now layouts.now report.now))) }
{
    let deal = file_text(alloc, FileWord::Deal, deal)?;
    let layouts = file_text(alloc, FileWord::Layouts, layouts)?;
    let report = file_text(alloc, FileWord::Report, report)?;
    let root = read_root(alloc, &deal, &layouts)?;
    check_report(alloc, &root, &report)
}

/// The text of what is asked, or the status with which the program would refuse it: `BadWords` for
/// moves or nodes that are out of range, then a file that is too long, then what the files and the
/// work of the job are refused for, in the program's order.
pub fn text_for(alloc: Global, request: Request<&[u8]>) -> Result<Text, Status>
    ensures text { IfOk result (IsTextFor (task_for (request_of request.entry))) }
    ensures refused { IfErr result (IsCallRefusal (task_for (request_of request.entry))) }
{
    match request {
        Request::Report {
            deal,
            layouts,
            moves,
            nodes,
        } => report(alloc, deal, layouts, moves, nodes),
        Request::Card {
            deal,
            layouts,
            moves,
            nodes,
        } => card(alloc, deal, layouts, moves, nodes),
        Request::Fusion { deal, layouts } => sample(alloc, deal, layouts),
        Request::List { deal } => list(alloc, deal),
        Request::Check {
            deal,
            layouts,
            report,
        } => check(alloc, deal, layouts, report),
    }
}
