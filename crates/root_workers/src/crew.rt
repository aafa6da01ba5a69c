//! Who searches the root cards that the workers of a round share.
ghost use Rattle.std.specs.Prelude.{◌≤◌, ⊤, IfOk, length};
ghost use Rattle.std.specs.Thread.{IsSync};
ghost use Rattle.shared_table.specs.Passes.{IsPassOf};
ghost use Rattle.root_workers.specs.Crews.{Searches};
ghost use Rattle.root_workers.specs.Rounds.{HasSeenMore};
ghost use Rattle.root_workers.specs.Tasks.{IsTask, IsKnownBy};
ghost use Rattle.worker_pool.specs.Findings.{AreRight};

use crate::round_work::RoundWork;
use crate::rounds::{Help, Task};
use crate::worker_results::Known;
use crate::workers::RootWorker;
use am_outside::Gate;
use shared_table::Pass;
use std::alloc::AllocError;
use std::thread::Threads;
use worker_pool::{Finding, work_side_by_side};

/// What workers know of root cards, or that there was no memory for it.
pub type Searched = Result<Vec<Finding<Known>>, AllocError>;

/// Helps the caller, who goes through all root cards of a round, and has the gate that every search
/// of a root card passes. No answer depends on what help there is, or on the gate.
pub trait RootCrew {
    type Gate: Gate;

    /// It can search.
    ghost ready: { Self → Type 0 };

    /// The gate that hears as the search of a root card begins and ends.
    fn gate(&self) -> &Self::Gate;

    /// What is known of root cards once the workers have done their task.
    fn searched(&self, task: &Task, workers: &mut [RootWorker], pass: &mut Pass) -> Searched
        requires ready { ready self.now }
        requires task { IsTask task.now }
        requires some { 1 ≤ length workers.old }
        requires pass { IsPassOf task.now.round.now.table.now pass.old }
        ensures right { IfOk result (λ findings. AreRight (IsKnownBy task.now) findings.items) }
        ensures pass { IsPassOf task.now.round.now.table.now pass.new }
        ensures grown { HasSeenMore pass.old pass.new };
}

/// Nobody but the caller, who searches every root card, in card order.
#[derive(Drop)]
pub struct Alone<'a, G> {
    pub gate: &'a G,
}

impl<G: Gate> RootCrew for Alone<'_, G> {
    type Gate = G;

    ghost ready = { λ _. ⊤ };

    fn gate(&self) -> &G {
        self.gate
    }

    fn searched(&self, task: &Task, _workers: &mut [RootWorker], _pass: &mut Pass) -> Searched {
        Ok(Vec::new(task.round.alloc))
    }
}

/// Workers in threads: `search` is `searched_in_threads`, and `rt` starts them. A method of a trait
/// may start no thread for a gate that it knows by a bound alone, so it is handed the function.
#[derive(Drop)]
pub struct InThreads<'a, R, G, F> {
    pub rt: &'a R,
    pub gate: &'a G,
    pub search: F,
}

impl<R, G: Gate, F: Fn(&R, &Task, &G, &mut [RootWorker], &mut Pass) -> Searched + Drop> RootCrew
    for InThreads<'_, R, G, F> {
    type Gate = G;

    ghost ready = { λ it. Searches (F.pre it.search it.rt) (F.post it.search it.rt) };

    fn gate(&self) -> &G {
        self.gate
    }

    fn searched(&self, task: &Task, workers: &mut [RootWorker], pass: &mut Pass) -> Searched {
        (self.search)(self.rt, task, self.gate, workers, pass)
    }
}

// How many workers a task is for: for root cards no more than there are.
fn most_workers(task: &Task) -> usize {
    match task.help {
        Help::Cards => usize::from(task.round.node.choices().count()),
        Help::Race(_) | Help::Layouts => usize::MAX,
    }
}

/// What the workers find together: nothing, if there is no work for two.
///
/// `threads` says again what the bounds say: a function that is handed over doesn't keep them.
pub fn searched_in_threads<R: Threads + Sync, G: Gate>(
    rt: &R,
    task: &Task,
    gate: &G,
    workers: &mut [RootWorker],
    pass: &mut Pass,
) -> Searched
    requires threads { IsSync R.row × IsSync G.row }
    requires task { IsTask task.now }
    requires some { 1 ≤ length workers.old }
    requires pass { IsPassOf task.now.round.now.table.now pass.old }
    ensures right { IfOk result (λ findings. AreRight (IsKnownBy task.now) findings.items) }
    ensures pass { IsPassOf task.now.round.now.table.now pass.new }
    ensures grown { HasSeenMore pass.old pass.new }
{
    let alloc = task.round.alloc;
    let count = workers.len().min(most_workers(task));
    if count < 2 {
        return Ok(Vec::new(alloc));
    }
    let work = RoundWork {
        task,
        gate,
        count: u32::try_from(count).unwrap_or(u32::MAX),
    };
    work_side_by_side(rt, alloc, &work, &mut workers[..count], pass)
}
