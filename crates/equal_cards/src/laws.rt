//! What equal cards come to. The function does nothing: its contract is the law.
ghost use Rattle.std.specs.Prelude.{◌↔◌, ℕ, List};
ghost use Rattle.win_vectors.specs.Fronts.{Vector};
ghost use Rattle.trick_rules.specs.Nodes.{NodeValue, IsNode, child};
ghost use Rattle.strategy_games.specs.Plans.{IsFront};
ghost use Rattle.strategy_tree.specs.Bridge.{bridge};
ghost use Rattle.equal_cards.specs.Equals.{AreEqualAt};

/// Equal cards lead to nodes with one front.
pub fn equal_cards_have_one_front()
    ensures { (n : NodeValue) (low high moves : ℕ) (front : List Vector) → IsNode n
        → AreEqualAt n low high
        → IsFront bridge (child n low) moves front ↔ IsFront bridge (child n high) moves front }
{}
