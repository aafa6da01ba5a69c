//! The place at which a plan is kept.

use std::hash::{FoldHasher, Hash, Hasher};
use trick_rules::Node;
use win_vectors::WinVector;

/// A number that differs between most nodes with their moves and vectors. Nodes of one deal with the
/// same hands mostly have other layouts if the first or the last one differs, or their number.
pub(crate) fn digest(node: &Node, moves: u8, vector: &WinVector) -> u64 {
    let position = node.position();
    let mut hasher = FoldHasher::default();
    position.declarer.hash(&mut hasher);
    position.dummy.hash(&mut hasher);
    position.unseen.hash(&mut hasher);
    node.left(0).hash(&mut hasher);
    node.left(node.width() - 1).hash(&mut hasher);
    hasher.write_u16(node.width());
    hasher.write_u8(moves);
    hasher.write_u64(mixed(vector));
    hasher.finish()
}

// A number that differs between most vectors of one width.
fn mixed(vector: &WinVector) -> u64 {
    let mut bits = 0u64;
    for place in 0..vector.width() {
        bits = bits.rotate_left(1) ^ u64::from(vector.get(place));
    }
    bits
}
