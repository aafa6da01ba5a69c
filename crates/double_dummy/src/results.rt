//! The results of a node's layouts.
ghost use Rattle.std.specs.Prelude.{◌≡◌, map};
ghost use Rattle.trick_rules.specs.Play.{makes};
ghost use Rattle.trick_rules.specs.Nodes.{states};

use crate::plain::makes_plain;
use trick_rules::Node;
use win_vectors::WinVector;

/// Double dummy's result in each layout of a node, in order.
pub fn plain_results(node: &Node) -> WinVector
    ensures { result ≡ map makes (states node.now) }
{
    let mut made = WinVector::none(node.width());
    for place in 0..node.width() {
        made = made.set(place, makes_plain(node.position(), node.left(place)));
    }
    made
}
