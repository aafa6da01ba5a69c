//! The report of a root, as `solve` of `alphamu` gives it.
ghost use Rattle.std.specs.Prelude.{◌≡◌, ◌≤◌, true, IfOk, IfErr, length};
ghost use Rattle.std.specs.Thread.{IsSync};
ghost use Rattle.shared_table.specs.Passes.{IsPassOf};
ghost use Rattle.root_workers.specs.Rounds.{HasSeenMore};
ghost use Rattle.root_workers.specs.Tasks.{IsTask, IsKnownBy};
ghost use Rattle.worker_pool.specs.Findings.{AreRight};
ghost use Rattle.job_words.specs.Asks.{IsMoves, IsSearchWithinLimits};
ghost use Rattle.am_answer.specs.Answers.{has_choice};
ghost use Rattle.study_top.specs.Solved.{IsSolvedReport, IsUnsolved};

use am_answer::{FileWord, Root, Status};
use am_outside::OpenGate;
use byte_text::Text;
use job_search::solve;
use job_words::Search;
use root_workers::{InThreads, RootWorker, Searched, Task, searched_in_threads};
use shared_table::Pass;
use std::alloc::Global;
use std::thread::Threads;

// The most bytes that the file of a report may have.
const MOST_BYTES: usize = 16_777_216;

// What workers in threads report of root cards: a crate can hand over a function of its own alone.
fn help_in_threads<R: Threads + Sync>(
    rt: &R,
    task: &Task,
    gate: &OpenGate,
    workers: &mut [RootWorker],
    pass: &mut Pass,
) -> Searched
    requires threads { IsSync R.row }
    requires task { IsTask task.now }
    requires some { 1 ≤ length workers.old }
    requires pass { IsPassOf task.now.round.now.table.now pass.old }
    ensures right { IfOk result (λ findings. AreRight (IsKnownBy task.now) findings.items) }
    ensures pass { IsPassOf task.now.round.now.table.now pass.new }
    ensures grown { HasSeenMore pass.old pass.new }
{
    searched_in_threads(rt, task, gate, workers, pass)
}

/// The report that `solve` gives at a root, for `moves` moves of declarer's side. Errors: those of
/// `solve`; `TooLong` if it has more bytes than the file of a report may have.
pub fn solved_report<R: Threads + Sync>(
    rt: &R,
    alloc: Global,
    root: &Root,
    moves: u8,
    search: &Search,
) -> Result<Text, Status>
    requires turn { has_choice root.now.kept.node ≡ true }
    requires weighed { length root.now.kept.weights ≡ length root.now.kept.node.lefts }
    requires moves { IsMoves moves }
    requires limits { IsSearchWithinLimits search.now }
    ensures text { IfOk result (IsSolvedReport root.now moves search.now) }
    ensures refused { IfErr result (IsUnsolved root.now moves search.now) }
{
    let crew = InThreads {
        rt,
        gate: &OpenGate,
        search: help_in_threads,
    };
    let report = solve(&crew, alloc, root, moves, search)?;
    if report.bytes().len() > MOST_BYTES {
        return Err(Status::TooLong(FileWord::Report));
    }
    Ok(report)
}
