//! Under what plans are kept, and what searches above targets find.
ghost use Rattle.std.specs.Prelude.{◌≡◌, IsTrue};

use trick_rules::Node;
use win_vectors::WinVector;

/// A node, a number of moves, and a vector for the node's layouts.
#[derive(Drop)]
pub struct VectorAt {
    pub node: Node,
    pub moves: u8,
    pub vector: WinVector,
}

impl VectorAt {
    /// Whether it is of this node, these moves and this vector.
    pub fn is_of(&self, node: &Node, moves: u8, vector: &WinVector) -> bool
        ensures node { IsTrue result → self.now.node ≡ node.now }
        ensures moves { IsTrue result → self.now.moves ≡ moves }
        ensures vector { IsTrue result → self.now.vector ≡ vector.now }
    {
        self.moves == moves && self.vector.equals(*vector) && self.node.equals(node)
    }
}
