//! Which layouts meet the conditions.
ghost use Rattle.std.specs.Prelude.{◌≡◌};
ghost use Rattle.std.specs.List.{list_any};
ghost use Rattle.hand_conditions.specs.Conditions.{meets};
ghost use Rattle.layout_draw.specs.Fitting.{meets_one, fits};

use card_sets::CardSet;
use hand_conditions::Condition;
use layout_maker::Layout;

/// Conditions on the hands of the two defenders before the first card: of those on one hand it has
/// to meet at least one, if there are any.
#[derive(Debug, Drop)]
pub struct Conditions {
    pub left: Vec<Condition>,
    pub right: Vec<Condition>,
}

// Whether a hand meets one of these conditions.
fn meets_any(conditions: &[Condition], hand: CardSet) -> bool
    ensures { result ≡ list_any (λ condition. meets condition hand) conditions.now }
{
    conditions.iter().any(|condition| condition.is_met_by(hand))
}

// Whether there are no conditions, or a hand meets one of them.
fn meets_one(conditions: &[Condition], hand: CardSet) -> bool
    ensures { result ≡ meets_one conditions.now hand }
{
    conditions.is_empty() || meets_any(conditions, hand)
}

impl Conditions {
    /// Whether the two hands of a layout meet the conditions.
    pub fn fit(&self, layout: &Layout) -> bool
        ensures { result ≡ fits self.now.left.items self.now.right.items layout.now }
    {
        meets_one(&self.left, layout.left) && meets_one(&self.right, layout.right)
    }
}
