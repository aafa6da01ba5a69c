//! A report that is judged by a log.
ghost use Rattle.std.specs.Prelude.{◌≡◌, ◌<◌, ◌-◌, ◌^◌, Ok, length, map, IfOk, IfErr};
ghost use Rattle.am_report.specs.Reading.{report_of};
ghost use Rattle.job_words.specs.declared.asks.LayoutsJob.TheVariants as jobs;
ghost use Rattle.am_answer.specs.Answers.{task_at};
ghost use Rattle.am_answer.specs.Tasks.{Audit};
ghost use Rattle.am_answer.specs.Auditing.{first_other_width, audit_of, audit_in};
ghost use Rattle.am_answer.specs.Stages.{IsFileRefusal, IsTaskRefusal, IsTextFor};

use am_answer::{Place, Root, Status};
use am_report::{ReadEntry, ReadReport, audit_text, read_report};
use byte_text::Text;
use job_check::has_head;
use log_check::{Log, LogVerdict, check_log};
use log_texts::read_log;
use std::alloc::{AllocError, Global};
use win_vectors::WinVector;

// The vectors of a report.
fn vectors_of(alloc: Global, entries: &[ReadEntry]) -> Result<Vec<WinVector>, AllocError>
    ensures { IfOk result (λ vectors.
        vectors.items ≡ map (λ read. read.entry.vector) entries.now) }
{
    let mut vectors = Vec::new(alloc);
    for read in entries {
        vectors.push(read.entry.vector)?;
    }
    Ok(vectors)
}

// The first vector that isn't so wide, counted from 1.
fn first_other_width(width: u16, vectors: &[WinVector]) -> Option<u32>
    requires { length vectors.now < 2 ^ 32 - 1 }
    ensures { result ≡ first_other_width width 1 vectors.now }
{
    for (index, vector) in vectors.iter().enumerate() {
        if vector.width() != width {
            return Some(index as u32 + 1);
        }
    }
    None
}

// The vectors of a report on these layouts, where its head is that of the files and they have a bit
// for each layout.
fn audited_vectors(
    alloc: Global,
    root: &Root,
    report: &ReadReport,
    log: &Log,
) -> Result<Vec<WinVector>, Status>
    requires { length report.now.entries.items < 2 ^ 32 - 1 }
    ensures vectors { IfOk result (λ vectors. audit_of root.now (report_of report.now) log.now
        ≡ Ok (record { moves = report.now.moves; vectors = vectors.items; lines = log.now })) }
    ensures refused { IfErr result
        (IsFileRefusal (audit_of root.now (report_of report.now) log.now)) }
{
    if !has_head(alloc, root, report)? {
        return Err(Status::Refuted(0, Place::Head));
    }
    let vectors = vectors_of(alloc, &report.entries)?;
    match first_other_width(root.kept.node.width(), &vectors) {
        Some(number) => Err(Status::Refuted(number, Place::Width)),
        None => Ok(vectors),
    }
}

/// What `audit` says of a report and a log at a root: that the log proves that no strategy wins a
/// vector that one of the report's doesn't dominate. It searches nothing.
///
/// The first fault is its status: of the report's grammar or the log's, with its line; `Refuted` if
/// the head isn't that of the files or a vector is of another width; or else `Unproved` exactly
/// when the log isn't valid, with its first line that doesn't follow.
#[tactic(auto, unfolding(am_answer::specs::Answers::task_at))]
pub fn audit_report(alloc: Global, root: &Root, report: &Text, log: &Text) -> Result<Text, Status>
    requires short { length report.now < 2 ^ 32 - 1 }
    requires log_short { length log.now < 2 ^ 32 - 1 }
    ensures text { IfOk result (IsTextFor (task_at root.now (jobs.Audit report.now log.now))) }
    ensures refused { IfErr result
        (IsTaskRefusal (task_at root.now (jobs.Audit report.now log.now))) }
{
    let report = read_report(alloc, report.bytes())?;
    let log = read_log(alloc, log.bytes())?;
    let vectors = audited_vectors(alloc, root, &report, &log)?;
    match check_log(alloc, &log, &root.kept.node, report.moves, &vectors)? {
        LogVerdict::Yes => Ok(audit_text(alloc, log.len())?),
        LogVerdict::No(number) => Err(Status::Unproved(number)),
    }
}
