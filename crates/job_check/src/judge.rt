//! A report that is judged without any search: its head, then each plan with its vector.
ghost use Rattle.std.specs.Prelude.{◌≡◌, ◌<◌, ◌-◌, ◌^◌, Ok, length, All, IfOk, IfErr, bytes_eq};
ghost use Rattle.strategy_games.specs.Misfits.{node_count};
ghost use Rattle.am_report.specs.Head.{head_text};
ghost use Rattle.am_report.specs.Reading.{report_of};
ghost use Rattle.job_words.specs.declared.asks.LayoutsJob.TheVariants as jobs;
ghost use Rattle.am_answer.specs.Answers.{task_at};
ghost use Rattle.am_answer.specs.Judging.{entry_fault, first_plan_fault, judged, plans_in};
ghost use Rattle.am_answer.specs.Stages.{IsFileRefusal, IsTextFor};

use am_answer::{Place, Root, Status};
use am_report::{ReadEntry, ReadReport, check_text, head_text, read_report};
use byte_text::Text;
use std::alloc::{AllocError, Global};
use strategy_check::{DoubleDummy, PlainMinimax, Verdict, check_by};
use trick_rules::Node;
use win_vectors::Weights;

// The fault of a plan with its vector and the number that follows it, if there is one.
#[tactic(auto, unfolding(am_answer::specs::Judging::entry_fault))]
fn entry_fault<D: DoubleDummy>(
    solver: &mut D,
    node: &Node,
    weights: &Weights,
    moves: u8,
    read: &ReadEntry,
) -> Option<Place>
    requires weighed { length weights.now ≡ length node.now.lefts }
    requires countable { node_count read.now.entry.plan < 2 ^ 32 }
    ensures { result ≡ entry_fault node.now weights.now moves read.now }
{
    let entry = &read.entry;
    if entry.vector.width() != node.width() {
        return Some(Place::Width);
    }
    if read.weight != weights.total(entry.vector) {
        return Some(Place::Weight);
    }
    match check_by(solver, node, moves, &entry.plan, &entry.vector) {
        Verdict::Good => None,
        Verdict::NotAStrategy(number) => Some(Place::Node(number)),
        Verdict::OtherVector(layout, bit) => Some(Place::Layout(layout, bit)),
    }
}

// The first plan at fault, from 1, and where.
fn first_plan_fault<D: DoubleDummy>(
    solver: &mut D,
    node: &Node,
    weights: &Weights,
    moves: u8,
    entries: &[ReadEntry],
) -> Option<(u32, Place)>
    requires weighed { length weights.now ≡ length node.now.lefts }
    requires few { length entries.now < 2 ^ 32 }
    requires countable { All (λ read. node_count read.entry.plan < 2 ^ 32) entries.now }
    ensures { result ≡ first_plan_fault node.now weights.now moves 1 entries.now }
{
    for (index, read) in entries.iter().enumerate() {
        if let Some(place) = entry_fault(solver, node, weights, moves, read) {
            return Some((index as u32 + 1, place));
        }
    }
    None
}

/// Whether the head of a report is that of the files.
pub fn has_head(alloc: Global, root: &Root, report: &ReadReport) -> Result<bool, AllocError>
    ensures { IfOk result (λ same. same ≡ bytes_eq report.now.head
        (head_text root.now.board root.now.kept report.now.moves)) }
{
    let head = head_text(alloc, &root.board, &root.kept, report.moves)?;
    Ok(report.head.bytes() == head.bytes())
}

// The number of plans of a report whose head is that of the files and whose plans are good.
#[tactic(auto, unfolding(am_answer::specs::Judging::judged))]
fn judged<D: DoubleDummy>(
    alloc: Global,
    root: &Root,
    report: &ReadReport,
    solver: &mut D,
) -> Result<u32, Status>
    requires weighed { length root.now.kept.weights ≡ length root.now.kept.node.lefts }
    requires few { length report.now.entries.items < 2 ^ 32 }
    requires countable { All (λ read. node_count read.entry.plan < 2 ^ 32)
        report.now.entries.items }
    ensures plans { IfOk result (λ plans. judged root.now (report_of report.now) ≡ Ok plans) }
    ensures refused { IfErr result (IsFileRefusal (judged root.now (report_of report.now))) }
{
    if !has_head(alloc, root, report)? {
        return Err(Status::Refuted(0, Place::Head));
    }
    let kept = &root.kept;
    match first_plan_fault(
        solver,
        &kept.node,
        &kept.weights,
        report.moves,
        &report.entries,
    ) {
        Some((plan, place)) => Err(Status::Refuted(plan, place)),
        None => Ok(report.entries.len() as u32),
    }
}

// The number of plans of a report, if each of them is good.
#[tactic(auto, unfolding(am_answer::specs::Judging::plans_in))]
fn count_good_plans<D: DoubleDummy>(
    alloc: Global,
    root: &Root,
    bytes: &[u8],
    solver: &mut D,
) -> Result<u32, Status>
    requires weighed { length root.now.kept.weights ≡ length root.now.kept.node.lefts }
    requires short { length bytes.now < 2 ^ 32 - 1 }
    ensures plans { IfOk result (λ plans. plans_in root.now bytes.now ≡ Ok plans) }
    ensures refused { IfErr result (IsFileRefusal (plans_in root.now bytes.now)) }
{
    let report = read_report(alloc, bytes)?;
    judged(alloc, root, &report, solver)
}

/// What `check` says of a report at a root: that each of its plans is good. It searches nothing.
/// The first fault is its status: of the report's grammar with its line, or else `Refuted` with the
/// plan and the place.
pub fn check_report(alloc: Global, root: &Root, report: &Text) -> Result<Text, Status>
    requires weighed { length root.now.kept.weights ≡ length root.now.kept.node.lefts }
    requires short { length report.now < 2 ^ 32 - 1 }
    ensures text { IfOk result (IsTextFor (task_at root.now (jobs.Check report.now))) }
    ensures refused { IfErr result (IsFileRefusal (task_at root.now (jobs.Check report.now))) }
{
    check_report_by(alloc, root, report, &mut PlainMinimax)
}

/// The same with another solver for the results that plans leave open.
#[tactic(auto, unfolding(am_answer::specs::Answers::task_at))]
pub fn check_report_by<D: DoubleDummy>(
    alloc: Global,
    root: &Root,
    report: &Text,
    solver: &mut D,
) -> Result<Text, Status>
    requires weighed { length root.now.kept.weights ≡ length root.now.kept.node.lefts }
    requires short { length report.now < 2 ^ 32 - 1 }
    ensures text { IfOk result (IsTextFor (task_at root.now (jobs.Check report.now))) }
    ensures refused { IfErr result (IsFileRefusal (task_at root.now (jobs.Check report.now))) }
{
    let plans = count_good_plans(alloc, root, report.bytes(), solver)?;
    Ok(check_text(alloc, plans)?)
}
