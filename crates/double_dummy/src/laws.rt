//! What the definitions come to. Each function does nothing: its contract is the law, proved from
//! the definitions alone.
ghost use Rattle.std.specs.Prelude.{◌≡◌, ℕ, ◌≤◌, true};
ghost use Rattle.trick_rules.specs.Positions.{State, IsState};
ghost use Rattle.trick_rules.specs.Play.{after, makes};
ghost use Rattle.double_dummy.specs.Equals.{AreEqual};
ghost use Rattle.double_dummy.specs.Needs.{with_need};

/// Equal cards win the same: whichever of the two is played, declarer's side makes or fails alike.
#[tactic(auto, using(crate::proofs::EqualCards::equal_cards_win_the_same))]
pub fn equal_cards_win_the_same()
    ensures { (s : State) (low high : ℕ) → IsState s → AreEqual s low high
        → makes (after s high) ≡ makes (after s low) }
{}

/// A need is a threshold: what makes with a need makes with each lower one.
#[tactic(auto, using(crate::proofs::Thresholds::a_lower_need_is_made))]
pub fn a_lower_need_is_made()
    ensures { (s : State) (need : ℕ) → IsState s → need ≤ s.position.need → makes s ≡ true
        → makes (with_need s need) ≡ true }
{}
