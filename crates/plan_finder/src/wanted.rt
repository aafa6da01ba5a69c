//! What a plan is wanted for.
use trick_rules::Node;
use win_vectors::WinVector;

/// What a plan is wanted for: a vector of the front of a node at which declarer's side is to play,
/// with 1 to 26 moves, and how the searches for it are made.
#[derive(Clone, Copy)]
pub struct Wanted<'a> {
    pub node: &'a Node,
    /// The vector of the front.
    pub target: &'a WinVector,
    pub moves: u8,
    /// How many nodes each search may enter.
    pub nodes: u64,
    /// Whether the searches make all cuts, or none.
    pub cuts: bool,
}
