//! The findings of all workers.
ghost use Rattle.std.specs.Prelude.{◌≤◌, ℕ, IfOk, length};
ghost use Rattle.shared_table.specs.Passes.{IsPassOf, view_of};
ghost use Rattle.worker_pool.specs.Findings.{AreRight};
ghost use Rattle.shared_table.specs.Stores.{HasGrownAt};

use crate::findings::Finding;
use crate::share::{Done, share};
use crate::work::Work;
use shared_table::Pass;
use std::alloc::{AllocError, Global};
use std::thread::Threads;
use work_tickets::Tickets;

/// What the workers found when all jobs are drawn, in no order of its own. A job may be left out,
/// since a worker had no memory for it. The workers are joined, so it may wait.
pub fn work_side_by_side<R: Threads + Sync, W: Work>(
    rt: &R,
    alloc: Global,
    work: &W,
    workers: &mut [W::Worker],
    pass: &mut Pass,
) -> Result<Vec<Finding<W::Found>>, AllocError>
    requires sound { W.sound work.now }
    requires some { 1 ≤ length workers.old }
    requires pass { IsPassOf (W.shared work.now) pass.old }
    ensures right { IfOk result (λ findings. AreRight (W.right work.now) findings.items) }
    ensures pass { IsPassOf (W.shared work.now) pass.new }
    ensures grown { (i : ℕ) → HasGrownAt i (view_of pass.old) (view_of pass.new) }
{
    let (tickets, drawn) = Tickets::new(alloc, work.places())?;
    let first = work.table().split(pass);
    let done = share(rt, alloc, work, workers, &tickets, first, drawn);
    let Done {
        pass: other,
        drawn: _,
        findings,
    } = done;
    work.table().join(pass, other);
    Ok(findings)
}
