//! What closed gaps come to. The function does nothing: its contract is the law.
ghost use Rattle.std.specs.Prelude.{◌≡◌, ℕ, true, false, List, []};
ghost use Rattle.card_sets.specs.SetWords.{has_card, IsCardSet};
ghost use Rattle.trick_rules.specs.Nodes.{NodeValue, IsNode};
ghost use Rattle.double_dummy.specs.Equals.{in_play};
ghost use Rattle.equivalent_nodes.specs.Ranks.{with_gaps_closed_at, AreEquivalent};

/// Between two tricks, gaps can be closed in every hand and every layout at once: the node that
/// this leads to has the same front with each number of moves.
pub fn closed_gaps_keep_fronts()
    ensures { (n : NodeValue) (gaps : List ℕ) → IsNode n → n.position.trick.cards ≡ []
        → IsCardSet gaps
        → ((gap : ℕ) → has_card gaps gap ≡ true → in_play n.position gap ≡ false)
        → AreEquivalent n (with_gaps_closed_at gaps n) }
{}
