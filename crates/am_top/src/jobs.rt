//! The work of each job, by what was read.
ghost use Rattle.std.specs.Prelude.{◌≡◌, ◌≢◌, ◌≤◌, ◌<◌, ◌-◌, ◌^◌, true, false, length, map};
ghost use Rattle.std.specs.Prelude.{IfOk, IfErr};
ghost use Rattle.job_words.specs.Asks.{IsSearchWithinLimits};
ghost use Rattle.am_answer.specs.Answers.{has_choice, listed_in, made_in, task_at, task_in};
ghost use Rattle.am_answer.specs.Files.{AreWithin, IsJobWithin, is_match, is_match_job};
ghost use Rattle.am_match.specs.Defences.{sitter};
ghost use Rattle.am_answer.specs.Stages.{IsFileRefusal, IsTaskRefusal, IsTextFor, IsTextForAt};
ghost use Rattle.shared_table.specs.Passes.{IsPassOf};
ghost use Rattle.root_workers.specs.Rounds.{HasSeenMore};
ghost use Rattle.root_workers.specs.Tasks.{IsTask, IsKnownBy};
ghost use Rattle.worker_pool.specs.Findings.{AreRight};
ghost use Rattle.std.specs.Thread.{IsSync};

use am_answer::{Inputs, Root, Status};
use am_inputs::{read_deal, read_root};
use am_match::Defender;
use am_outside::Gate;
use byte_text::Text;
use job_audit::audit_report;
use job_boards::solve_boards;
use job_check::check_report;
use job_fusion::sample_text;
use job_list::list_layouts;
use job_match::{Match, play_match};
use job_prove::prove_front;
use job_search::{Made, name_card, solve, summarize};
use job_words::{Ask, LayoutsJob, Search};
use layout_maker::made_problem;
use root_workers::{InThreads, RootWorker, Searched, Task, searched_in_threads};
use shared_table::Pass;
use std::alloc::Global;
use std::thread::Threads;

// What workers in threads report of root cards. A crate can hand over a function of its own, and
// none of another crate; `threads` says again what the bounds say, which it doesn't keep.
fn help_in_threads<R: Threads + Sync, G: Gate>(
    rt: &R,
    task: &Task,
    gate: &G,
    workers: &mut [RootWorker],
    pass: &mut Pass,
) -> Searched
    requires threads { IsSync R.row × IsSync G.row }
    requires task { IsTask task.now }
    requires some { 1 ≤ length workers.old }
    requires pass { IsPassOf task.now.round.now.table.now pass.old }
    ensures right { IfOk result (λ findings. AreRight (IsKnownBy task.now) findings.items) }
    ensures pass { IsPassOf task.now.round.now.table.now pass.new }
    ensures grown { HasSeenMore pass.old pass.new }
{
    searched_in_threads(rt, task, gate, workers, pass)
}

// The text of a job at a root, or why there is none.
#[tactic(auto, unfolding(am_answer::specs::Answers::task_at))]
fn text_at<R: Threads + Sync, G: Gate>(
    rt: &R,
    alloc: Global,
    root: &Root,
    job: &LayoutsJob<Text>,
    gate: &G,
    table: &mut Vec<Box<dyn Defender>>,
) -> Result<Text, Status>
    requires turn { has_choice root.now.kept.node ≡ true }
    requires as_many { length root.now.kept.numbers ≡ length root.now.kept.node.lefts }
    requires weighed { length root.now.kept.weights ≡ length root.now.kept.node.lefts }
    requires within { IsJobWithin job.now }
    requires seats { length table.old.items ≡ 3 }
    ensures text { IfOk result (IsTextForAt (task_at root.now job.now)
        (map (λ d. sitter (style d) (heard d)) table.old.items)
        (map (λ d. sitter (style d) (heard d)) table.new.items)) }
    ensures refused { IfErr result (IsTaskRefusal (task_at root.now job.now)) }
    ensures others { is_match_job job.now ≡ false → table.new ≡ table.old }
    ensures untouched { IfErr result (λ status.
        status ≢ Status.Memory → table.new ≡ table.old) }
{
    let crew = InThreads {
        rt,
        gate,
        search: help_in_threads,
    };
    match job {
        LayoutsJob::Solve { moves, search } => solve(&crew, alloc, root, *moves, search),
        LayoutsJob::Card { moves, search } => name_card(&crew, alloc, root, *moves, search),
        LayoutsJob::Match {
            moves,
            search,
            layout,
            switch,
        } => {
            let played = Match {
                root,
                moves: *moves,
                search,
                layout: *layout,
                switch: *switch,
            };
            play_match(&crew, alloc, &played, table)
        }
        LayoutsJob::Fusion => Ok(sample_text(rt, alloc, root)?),
        LayoutsJob::Check { report } => check_report(alloc, root, report),
        LayoutsJob::Prove { moves, nodes } => prove_front(alloc, root, *moves, *nodes),
        LayoutsJob::Audit { report, log } => audit_report(alloc, root, report, log),
    }
}

// All layouts of the board of a deal file, as a layout file.
#[tactic(auto, unfolding(am_answer::specs::Answers::listed_in))]
fn list(alloc: Global, deal: &Text) -> Result<Text, Status>
    requires { length deal.now < 2 ^ 32 - 1 }
    ensures text { IfOk result (IsTextFor (listed_in deal.now)) }
    ensures refused { IfErr result (IsFileRefusal (listed_in deal.now)) }
{
    let board = read_deal(alloc, deal)?;
    list_layouts(alloc, &board)
}

// Makes a problem from a number, reads it as files are read, and solves it.
#[tactic(auto, unfolding(am_answer::specs::Answers::made_in))]
fn solve_made<R: Threads + Sync, G: Gate>(
    rt: &R,
    alloc: Global,
    number: u64,
    search: &Search,
    gate: &G,
) -> Result<Text, Status>
    requires { IsSearchWithinLimits search.now }
    ensures text { IfOk result (IsTextFor (made_in number search.now)) }
    ensures refused { IfErr result (IsTaskRefusal (made_in number search.now)) }
{
    let made = made_problem(alloc, number)?;
    let root = read_root(alloc, &made.deal, &made.layouts)?;
    let job = Made {
        number,
        root: &root,
        moves: made.moves,
    };
    let crew = InThreads {
        rt,
        gate,
        search: help_in_threads,
    };
    summarize(&crew, alloc, &job, search)
}

/// The text of the job that the files lead to, or why there is none. A match is played at the
/// table; no other job touches it, and neither does a refusal unless an allocation fails.
#[tactic(auto, unfolding(am_answer::specs::Answers::task_in))]
pub fn text_in<R: Threads + Sync, G: Gate>(
    rt: &R,
    alloc: Global,
    inputs: &Inputs,
    gate: &G,
    table: &mut Vec<Box<dyn Defender>>,
) -> Result<Text, Status>
    requires within { AreWithin inputs.now }
    requires seats { length table.old.items ≡ 3 }
    ensures text { IfOk result (IsTextForAt (task_in inputs.now)
        (map (λ d. sitter (style d) (heard d)) table.old.items)
        (map (λ d. sitter (style d) (heard d)) table.new.items)) }
    ensures refused { IfErr result (IsTaskRefusal (task_in inputs.now)) }
    ensures others { is_match inputs.now ≡ false → table.new ≡ table.old }
    ensures untouched { IfErr result (λ status.
        status ≢ Status.Memory → table.new ≡ table.old) }
{
    match inputs {
        Ask::OnLayouts { deal, layouts, job } => {
            let root = read_root(alloc, deal, layouts)?;
            text_at(rt, alloc, &root, job, gate, table)
        }
        Ask::List { deal } => list(alloc, deal),
        Ask::Made { number, search } => solve_made(rt, alloc, *number, search, gate),
        Ask::Boards {
            games,
            moves,
            search,
        } => solve_boards(rt, alloc, games, *moves, search, gate),
    }
}
