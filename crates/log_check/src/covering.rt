//! What lists of vectors cover.
ghost use Rattle.std.specs.Prelude.{◌≡◌, ◌↔◌, ◌≤◌, IsTrue, Contains, length};
ghost use Rattle.win_vectors.specs.Fronts.{Dominates, Covers, CoversAll, HaveWidth};
ghost use Rattle.log_check.specs.Logs.{cited_lines};
ghost use Rattle.log_check.specs.declared.lines.LogLine.{LogLine};
ghost use Rattle.log_check.specs.Steps.{AreNumbers};

use crate::lines::LogLine;
use win_vectors::WinVector;

/// Whether each vector is of this width.
pub fn have_width(vectors: &[WinVector], width: u16) -> bool
    ensures { IsTrue result ↔ HaveWidth width vectors.now }
{
    vectors.iter().all(|vector| vector.width() == width)
}

/// Whether the two are of one width, and the first dominates the second.
fn dominates(vector: WinVector, other: WinVector) -> bool
    ensures { IsTrue result ↔ Dominates vector other }
{
    vector.width() == other.width() && vector.dominates(other)
}

/// Whether some vector of a list dominates another.
pub fn covers(vectors: &[WinVector], other: WinVector) -> bool
    ensures { IsTrue result ↔ Covers vectors.now other }
{
    vectors.iter().any(|vector| dominates(*vector, other))
}

/// Whether some vector of a list dominates each of another list.
pub fn covers_all(vectors: &[WinVector], others: &[WinVector]) -> bool
    ensures { IsTrue result ↔ CoversAll vectors.now others.now }
{
    others.iter().all(|other| covers(vectors, *other))
}

/// Whether a list covers the vectors of each of the lines of these numbers.
pub fn covers_lines(vectors: &[WinVector], lines: &[LogLine], numbers: &[u32]) -> bool
    requires { AreNumbers (length lines.now) numbers.now }
    ensures { IsTrue result ↔ ((l : LogLine) → Contains (cited_lines lines.now numbers.now) l
        → CoversAll vectors.now l.vectors) }
{
    for number in numbers {
        if !covers_all(vectors, lines[*number as usize - 1].vectors.as_slice()) {
            return false;
        }
    }
    true
}
