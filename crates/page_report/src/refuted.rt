//! Why plain sampling believes in more than the lines make.
ghost use Rattle.std.specs.Prelude.{◌≡◌, length, IfOk};
ghost use Rattle.page_text.specs.Refutations.{refuting_place};
ghost use Rattle.page_report.specs.BesideLines.{FitNode};
ghost use Rattle.page_report.specs.Refuted.{IsRefutedAt, AreRefuted};

use crate::plays::played_line;
use am_report::ReadEntry;
use dd_solver::Solver;
use page_text::{Belief, Line, Refutation, refuting_place};
use std::alloc::{AllocError, Global};
use trick_rules::Node;

// The best line that begins with a card, played out, if it makes less than is believed.
fn refutation_of(
    alloc: Global,
    solver: &mut Solver,
    node: &Node,
    entries: &[ReadEntry],
    lines: &[Line],
    belief: &Belief,
) -> Result<Option<Refutation>, AllocError>
    requires fit { FitNode node.now entries.now }
    requires one_each { length lines.now ≡ length entries.now }
    ensures { IfOk result (IsRefutedAt node.now entries.now belief.now
        (refuting_place lines.now belief.now)) }
{
    let Some(place) = refuting_place(lines, belief) else {
        return Ok(None);
    };
    let line = played_line(alloc, solver, node, place as u64 + 1, &entries[place])?;
    Ok(Some(Refutation {
        card: belief.card,
        believed: belief.vector,
        line,
    }))
}

/// For each belief the best line that begins with its card, played out in each layout; `None` if it
/// makes as much as is believed, or if there is no such line.
pub fn refuted_of(
    alloc: Global,
    node: &Node,
    entries: &[ReadEntry],
    lines: &[Line],
    beliefs: &[Belief],
) -> Result<Vec<Option<Refutation>>, AllocError>
    requires fit { FitNode node.now entries.now }
    requires one_each { length lines.now ≡ length entries.now }
    ensures { IfOk result (λ refuted.
        AreRefuted node.now entries.now lines.now beliefs.now refuted.items) }
{
    let mut solver = Solver::new(alloc);
    let mut refuted = Vec::new(alloc);
    for belief in beliefs {
        let one = refutation_of(alloc, &mut solver, node, entries, lines, belief)?;
        refuted.push(one)?;
    }
    Ok(refuted)
}
