//! The workers at a root.
ghost use Rattle.std.specs.Prelude.{◌≤◌, IfOk, length};

use crate::root::Options;
use dd_solver::{SharedMemo, Solver};
use search_race::{Race, Runner};
use std::alloc::{AllocError, Global};
use std::sync::Arc;
use trick_rules::Node;

/// A worker by its number, counted from 0, with a double-dummy solver of its own and its place in the
/// race of all workers.
#[derive(Drop)]
pub struct RootWorker {
    pub number: u32,
    pub solver: Solver,
    pub runner: Runner,
}

impl RootWorker {
    // A worker that has solved nothing.
    fn new(alloc: Global, number: u32) -> RootWorker {
        RootWorker {
            number,
            solver: Solver::new(alloc),
            runner: Runner::alone(),
        }
    }
}

// How many workers a root may have. Without cuts no more than there are root cards for them; with cuts
// all of them race after one root card.
fn most_workers(options: &Options, node: &Node) -> u32 {
    if options.cuts {
        options.workers
    } else {
        options.workers.min(u32::from(node.choices().count()))
    }
}

/// The workers that the options ask for, or without cuts as many as there are root cards, but at least
/// one.
pub fn workers_for(
    alloc: Global,
    options: &Options,
    node: &Node,
) -> Result<Vec<RootWorker>, AllocError>
    ensures { IfOk result (λ workers. 1 ≤ length workers.items) }
{
    let count = most_workers(options, node);
    let mut workers = vec![in alloc; RootWorker::new(alloc, 0)]?;
    for number in 1..count {
        workers.push(RootWorker::new(alloc, number))?;
    }
    Ok(workers)
}

// Gives all workers one race, and one memo of double dummy in place of their own.
fn join_up(alloc: Global, workers: &mut [RootWorker]) -> Result<(), AllocError> {
    let memo = Arc::new(alloc, SharedMemo::new(alloc)?)?;
    let race = Arc::new(alloc, Race::new(workers.len()))?;
    for place in 0..workers.len() {
        let shared = Arc::try_clone(&memo)?;
        workers[place].runner = Runner::in_race(Arc::try_clone(&race)?, place);
        workers[place].solver = Solver::sharing(alloc, shared);
    }
    Ok(())
}

/// Whether the help of the other workers pays by now. If so, all of them have one memo and one race, in
/// which none of them has answered yet; or if there is no memory for that, each goes on as before.
///
/// No clause: no answer depends on it.
pub fn wants_help(alloc: Global, workers: &mut [RootWorker]) -> bool {
    if workers.len() < 2 {
        return false;
    }
    let price = workers[0].runner.help_price();
    if !workers[0].solver.has_kept(price) {
        return false;
    }
    if workers[0].runner.is_alone() {
        let _ = join_up(alloc, workers);
    }
    true
}
