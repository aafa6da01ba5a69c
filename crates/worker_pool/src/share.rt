//! Workers side by side: half of them in another thread, and so on down to one.
ghost use Rattle.std.specs.Prelude.{◌≤◌, ℕ, length};
ghost use Rattle.std.specs.Thread.{IsSync};
ghost use Rattle.shared_table.specs.Passes.{IsPassOf, view_of};
ghost use Rattle.work_tickets.specs.Passes.{IsTicketPass};
ghost use Rattle.worker_pool.specs.Findings.{AreRight};
ghost use Rattle.shared_table.specs.Stores.{HasGrownAt};

use crate::findings::Finding;
use crate::work::Work;
use crate::worker::draw_all;
use shared_table::Pass;
use std::alloc::Global;
use std::thread::{Threads, join};
use work_tickets::{TicketPass, Tickets};

/// The passes of workers that are done, joined, and what they found.
#[derive(Drop)]
pub struct Done<F> {
    pub pass: Pass,
    pub drawn: TicketPass,
    pub findings: Vec<Finding<F>>,
}

// What two halves of the workers found together. What there is no memory for is left out.
fn both<W: Work>(
    work: &W,
    tickets: &Tickets,
    mine: Done<W::Found>,
    theirs: Done<W::Found>,
) -> Done<W::Found>
    requires mine { IsPassOf (W.shared work.now) mine.pass × IsTicketPass tickets.now mine.drawn }
    requires theirs { IsPassOf (W.shared work.now) theirs.pass
        × IsTicketPass tickets.now theirs.drawn }
    requires right { AreRight (W.right work.now) mine.findings.items
        × AreRight (W.right work.now) theirs.findings.items }
    ensures passes { IsPassOf (W.shared work.now) result.pass
        × IsTicketPass tickets.now result.drawn }
    ensures right { AreRight (W.right work.now) result.findings.items }
    ensures grown { (i : ℕ) → HasGrownAt i (view_of mine.pass) (view_of result.pass) }
{
    let Done {
        mut pass,
        mut drawn,
        mut findings,
    } = mine;
    let Done {
        pass: other,
        drawn: others,
        findings: mut more,
    } = theirs;
    work.table().join(&mut pass, other);
    tickets.join(&mut drawn, others);
    let _ = findings.append(&mut more);
    Done {
        pass,
        drawn,
        findings,
    }
}

/// The work of these workers. Each draws jobs until none is left.
pub fn share<R: Threads + Sync, W: Work>(
    rt: &R,
    alloc: Global,
    work: &W,
    workers: &mut [W::Worker],
    tickets: &Tickets,
    mut pass: Pass,
    mut drawn: TicketPass,
) -> Done<W::Found>
    requires sound { W.sound work.now }
    requires some { 1 ≤ length workers.old }
    requires passes { IsPassOf (W.shared work.now) pass × IsTicketPass tickets.now drawn }
    ensures passes { IsPassOf (W.shared work.now) result.pass
        × IsTicketPass tickets.now result.drawn }
    ensures right { AreRight (W.right work.now) result.findings.items }
    ensures grown { (i : ℕ) → HasGrownAt i (view_of pass) (view_of result.pass) }
{
    if workers.len() == 1 {
        let findings = draw_all(alloc, work, &mut workers[0], &mut pass, tickets, &mut drawn);
        return Done {
            pass,
            drawn,
            findings,
        };
    }
    let half = workers.len() / 2;
    let other = work.table().split(&mut pass);
    let others = tickets.split(&mut drawn);
    let (left, right) = workers.split_at_mut(half);
    let (mine, theirs) = join(
        rt,
        move || -> Done<W::Found>
            requires { IsSync R.row × IsSync W.row × W.sound work.now × (1 ≤ length left.now)
                × IsPassOf (W.shared work.now) pass × IsTicketPass tickets.now drawn }
            ensures { IsPassOf (W.shared work.entry.now) result.pass
                × IsTicketPass tickets.entry.now result.drawn
                × AreRight (W.right work.entry.now) result.findings.items
                × ((i : ℕ) → HasGrownAt i (view_of pass) (view_of result.pass)) }
        { share(rt, alloc, work, left, tickets, pass, drawn) },
        move || -> Done<W::Found>
            requires { IsSync R.row × IsSync W.row × W.sound work.now × (1 ≤ length right.now)
                × IsPassOf (W.shared work.now) other × IsTicketPass tickets.now others }
            ensures { IsPassOf (W.shared work.entry.now) result.pass
                × IsTicketPass tickets.entry.now result.drawn
                × AreRight (W.right work.entry.now) result.findings.items }
        { share(rt, alloc, work, right, tickets, other, others) },
    );
    both(work, tickets, mine, theirs)
}
