//! What a search says of a set of layouts.
use win_vectors::WinVector;

/// Whether a set of layouts is winnable.
#[derive(Debug, Drop)]
pub enum Verdict {
    /// One strategy wins each layout of the set.
    Won,
    /// These layouts, one at least and all of the set, are a core: no strategy wins each of them.
    Core(WinVector),
}
