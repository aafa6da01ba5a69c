//! What the definitions come to. The function does nothing: its contract is the law, proved from
//! the definitions alone.
ghost use Rattle.std.specs.Prelude.{◌≡◌, ℕ, true, List, Contains};
ghost use Rattle.trick_rules.specs.Positions.{State};
ghost use Rattle.trick_rules.specs.Nodes.{NodeValue, IsNode, states};
ghost use Rattle.strategy_games.specs.Plans.{Plan, Fits, wins};
ghost use Rattle.strategy_tree.specs.Bridge.{bridge};
ghost use Rattle.am_match.specs.Defences.{Sitter};
ghost use Rattle.am_match.specs.PlayOuts.{Follows, state_after};

/// A layout that a strategy wins is made by each line that follows it, whoever sits at the table as
/// each card is played.
#[tactic(auto, using(crate::proofs::WonLines::what_is_won_is_made))]
pub fn what_is_won_is_made()
    ensures { (plan : Plan ℕ) (n : NodeValue) (moves : ℕ) (s : State)
        (tables : ℕ → List Sitter) (cards : List ℕ) → IsNode n → Fits bridge plan n moves
        → Contains (states n) s → wins bridge plan s ≡ true → Follows plan s tables cards
        → (state_after s cards).position.need ≡ 0 }
{}
