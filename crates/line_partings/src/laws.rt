//! What the definitions come to. The functions do nothing: a contract is the law, proved from the
//! definitions alone.
ghost use Rattle.std.specs.Prelude.{◌≡◌, ℕ, List};
ghost use Rattle.strategy_games.specs.Plans.{Plan};
ghost use Rattle.line_partings.specs.Partings.{PartAfter, PartingValue, IsFirstParting};

/// Two plans have one place at most where they first part.
#[tactic(auto, using(crate::proofs::OnePlace::one_place))]
pub fn one_place()
    ensures { (plan other : Plan ℕ) (here there : PartingValue) → IsFirstParting plan other here
        → IsFirstParting plan other there → here ≡ there }
{}

/// A plan parts nowhere from itself.
#[tactic(auto, using(crate::proofs::OnePlace::none_from_itself))]
pub fn none_from_itself()
    ensures { (plan : Plan ℕ) (history : List ℕ) (card other_card : ℕ)
        → PartAfter plan plan history card other_card → ⊥ }
{}
