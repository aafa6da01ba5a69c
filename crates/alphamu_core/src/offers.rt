// What a search gives to its store.
ghost use Rattle.std.specs.Prelude.{IfOk};
ghost use Rattle.equivalent_nodes.specs.Ranks.{AreEquivalent};
ghost use Rattle.alphamu_core.specs.Findings.{IsFrontIfExact};

use crate::answers::{Answer, Found};
use front_table::{FrontStore, ProvenFront};
use trick_rules::Node;

/// Offers the front that was found for a node, if one was, under a key: an equivalent node. What
/// the store does with it changes nothing here.
pub fn offer<S: FrontStore>(store: &mut S, node: &Node, key: Node, moves: u8, answer: &Answer)
    requires answer { IfOk answer.now (IsFrontIfExact node.now moves) }
    requires key { AreEquivalent node.now key }
    ensures { S.grown store.old store.new }
{
    if let Ok(Found::Exact(front)) = answer {
        if let Ok(copy) = front.copy() {
            let _ = store.put(ProvenFront::new(key, moves, copy));
        }
    }
}
