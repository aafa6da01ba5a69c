//! The Pareto front of the vectors of lines.
ghost use Rattle.std.specs.Prelude.{◌≡◌, ◌≤◌, IfOk};
ghost use Rattle.win_vectors.specs.Vectors.{most_layouts};
ghost use Rattle.win_vectors.specs.Fronts.{HaveWidth};
ghost use Rattle.log_check.specs.Steps.{CoverAlike, SayAlike};

use crate::covering::have_width;
use crate::lines::{LineList, LogLine, VectorList};
use pareto_fronts::Front;
use std::alloc::{AllocError, Global};
use trick_rules::CardLine;
use win_vectors::WinVector;

/// The line with only the best of its vectors. If one of the two is sound, so is the other, and
/// the same lines follow from both.
pub fn best_line(alloc: Global, line: &LogLine) -> Result<LogLine, AllocError>
    ensures { IfOk result (SayAlike line.now) }
{
    let from = LineList::of(alloc, line.from.as_slice())?;
    let vectors = best_vectors(alloc, line.vectors.as_slice())?;
    Ok(LogLine {
        rule: line.rule,
        path: same_path(&line.path),
        moves: line.moves,
        from,
        vectors,
    })
}

/// The best of these vectors, in printing order, if all have one width. Vectors of several widths
/// are left as they are.
pub fn best_vectors(alloc: Global, vectors: &[WinVector]) -> Result<VectorList, AllocError>
    ensures { IfOk result (CoverAlike vectors.now) }
{
    let Some(first) = vectors.first() else {
        return Ok(VectorList::new(alloc));
    };
    if !have_width(vectors, first.width()) {
        return VectorList::of(alloc, vectors);
    }
    let front = front_of(alloc, first.width(), vectors)?;
    VectorList::of(alloc, front.as_slice())
}

/// The best vectors of a list.
pub fn front_of(alloc: Global, width: u16, vectors: &[WinVector]) -> Result<Front, AllocError>
    requires low { 1 ≤ width }
    requires high { width ≤ most_layouts }
    requires widths { HaveWidth width vectors.now }
    ensures width { IfOk result (λ front. front.width ≡ width) }
    ensures alike { IfOk result (λ front. CoverAlike vectors.now front.vectors) }
{
    let mut front = Front::new(alloc, width);
    for vector in vectors {
        front.insert(*vector)?;
    }
    Ok(front)
}

// The same cards.
fn same_path(path: &CardLine) -> CardLine
    ensures { result ≡ path.now }
{
    let mut same = CardLine::new();
    for place in 0..path.len() {
        same.push(path.get(place));
    }
    same
}
