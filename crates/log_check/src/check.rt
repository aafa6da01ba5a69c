//! The verdict on a log.
ghost use Rattle.std.specs.Prelude.{◌≡◌, ◌↔◌, IfOk, IsTrue, length};
ghost use Rattle.log_check.specs.Logs.{EndsAtRoot};
ghost use Rattle.log_check.specs.LogVerdicts.{IsLogVerdict};

use crate::best::{best_line, best_vectors};
use crate::covering::covers_all;
use crate::lines::{Log, LogLine};
use crate::sound::is_sound;
use std::alloc::{AllocError, Global};
use trick_rules::Node;
use win_vectors::WinVector;

/// What a log is found to be.
#[derive(Clone, Copy, Debug, PartialEq, Eq)]
pub enum LogVerdict {
    /// It is valid: no strategy wins a vector that the vectors don't dominate.
    Yes,
    /// It doesn't prove it. The number is that of the first line that isn't sound, counted from 1,
    /// or the one after the last if each line is sound and the last doesn't prove the vectors.
    No(u32),
}

/// Judges a log for a node with `moves` moves of declarer's side and a list of vectors: whether
/// each line follows by the rules of play, double dummy and the lines before it, and whether the
/// last one says that no strategy wins more than the vectors.
///
/// Only the best vectors of a line are compared, which gives the same verdict.
pub fn check_log(
    alloc: Global,
    log: &Log,
    node: &Node,
    moves: u8,
    vectors: &[WinVector],
) -> Result<LogVerdict, AllocError>
    ensures { IfOk result (IsLogVerdict node.now moves vectors.now log.now) }
{
    let lines = log.as_slice();
    let mut judged: Vec<LogLine> = Vec::new(alloc);
    for place in 0..lines.len() {
        let line = best_line(alloc, &lines[place])?;
        if !is_sound(alloc, node, moves, &judged, &line)? {
            return Ok(LogVerdict::No(place as u32 + 1));
        }
        judged.push(line)?;
    }
    let best = best_vectors(alloc, vectors)?;
    if ends_at_root(best.as_slice(), &judged) {
        Ok(LogVerdict::Yes)
    } else {
        Ok(LogVerdict::No(lines.len() as u32 + 1))
    }
}

// Whether the last line is of the node itself, and the vectors dominate its vectors.
fn ends_at_root(vectors: &[WinVector], lines: &[LogLine]) -> bool
    ensures { IsTrue result ↔ EndsAtRoot vectors.now lines.now }
{
    let Some(last) = lines.last() else {
        return false;
    };
    last.path.len() == 0 && covers_all(vectors, last.vectors.as_slice())
}
