//! One worker: it draws jobs and does each.
ghost use Rattle.std.specs.Prelude.{ℕ};
ghost use Rattle.shared_table.specs.Passes.{IsPassOf, view_of};
ghost use Rattle.work_tickets.specs.Passes.{IsTicketPass};
ghost use Rattle.worker_pool.specs.Findings.{AreRight};
ghost use Rattle.shared_table.specs.Stores.{HasGrownAt};

use crate::findings::Finding;
use crate::work::Work;
use shared_table::Pass;
use std::alloc::{AllocError, Global};
use work_tickets::{TicketPass, Tickets};

// Does the job at a place, and adds what is found by it.
fn do_job<W: Work>(
    work: &W,
    worker: &mut W::Worker,
    notes: &mut W::Notes,
    pass: &mut Pass,
    place: u32,
    findings: &mut Vec<Finding<W::Found>>,
) -> Result<(), AllocError>
    requires sound { W.sound work.now }
    requires notes { W.noted work.now notes.old }
    requires pass { IsPassOf (W.shared work.now) pass.old }
    requires right { AreRight (W.right work.now) findings.old.items }
    ensures notes { W.noted work.now notes.new }
    ensures right { AreRight (W.right work.now) findings.new.items }
    ensures pass { IsPassOf (W.shared work.now) pass.new }
    ensures grown { (i : ℕ) → HasGrownAt i (view_of pass.old) (view_of pass.new) }
{
    if let Some(found) = work.work_at(worker, notes, pass, place)? {
        findings.push(Finding { place, found })?;
    }
    Ok(())
}

/// Draws jobs until none is left, and says what it found. A worker that finds no memory ends its
/// work.
pub fn draw_all<W: Work>(
    alloc: Global,
    work: &W,
    worker: &mut W::Worker,
    pass: &mut Pass,
    tickets: &Tickets,
    drawn: &mut TicketPass,
) -> Vec<Finding<W::Found>>
    requires sound { W.sound work.now }
    requires pass { IsPassOf (W.shared work.now) pass.old }
    requires drawn { IsTicketPass tickets.now drawn.old }
    ensures right { AreRight (W.right work.now) result.items }
    ensures pass { IsPassOf (W.shared work.now) pass.new }
    ensures grown { (i : ℕ) → HasGrownAt i (view_of pass.old) (view_of pass.new) }
    ensures drawn { IsTicketPass tickets.now drawn.new }
{
    let mut findings = Vec::new(alloc);
    let mut notes = work.start();
    for turn in 0..work.places() {
        let Some(place) = tickets.draw(drawn) else {
            return findings;
        };
        let done = do_job(work, worker, &mut notes, pass, place, &mut findings);
        if done.is_err() {
            return findings;
        }
    }
    findings
}
