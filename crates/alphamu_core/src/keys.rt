// Under which node a store has a front.
ghost use Rattle.std.specs.Prelude.{◌≡◌, true, false, IfOk};
ghost use Rattle.equivalent_nodes.specs.Ranks.{in_relative_ranks as relative_node, AreEquivalent};

use cut_rules::CutRules;
use equivalent_nodes::in_relative_ranks;
use std::alloc::{AllocError, Global};
use trick_rules::Node;

/// The node under which a store has the front of this node, which is the same: if there are cuts,
/// the node in relative ranks, and else the node itself.
pub fn store_key(alloc: Global, node: &Node, rules: CutRules) -> Result<Node, AllocError>
    ensures cuts { rules.bound ≡ true → IfOk result (λ key. key ≡ relative_node node.now) }
    ensures none { rules.bound ≡ false → IfOk result (λ key. key ≡ node.now) }
    ensures equivalent { IfOk result (AreEquivalent node.now) }
{
    if rules.bound {
        in_relative_ranks(alloc, node)
    } else {
        node.copy(alloc)
    }
}
