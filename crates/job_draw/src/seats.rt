//! Conditions on the defenders' hands.
ghost use Rattle.std.specs.Prelude.{◌≡◌, None, Some, MatchResult};
ghost use Rattle.job_draw.specs.Seats.{AreOnDefenders, first_told, option_if_told, told_of_ours};

use card_sets::Compass;
use hand_conditions::Condition;
use job_words::{OptionName, SeatConditions};
use layout_draw::Conditions;

/// Conditions on the hand of a seat, and the option that tells them.
#[derive(Drop)]
struct Told {
    option: OptionName,
    conditions: Vec<Condition>,
}

impl Told {
    fn new(option: OptionName, conditions: Vec<Condition>) -> Told
        ensures option { result.option ≡ option }
        ensures conditions { result.conditions.items ≡ conditions.items }
    {
        Told { option, conditions }
    }

    // The option, if it tells any.
    fn option_if_told(&self) -> Option<OptionName>
        ensures { result ≡ option_if_told self.now.conditions.items self.now.option }
    {
        if self.conditions.is_empty() {
            None
        } else {
            Some(self.option)
        }
    }
}

// The conditions on the hands of Left and Right, if there are none on those of declarer and dummy.
fn on_defenders(
    declarer: &Told,
    left: Vec<Condition>,
    dummy: &Told,
    right: Vec<Condition>,
) -> Result<Conditions, OptionName>
    ensures { MatchResult result
        (λ conditions. (conditions.left.items ≡ left.items)
        × (conditions.right.items ≡ right.items)
        × (option_if_told declarer.now.conditions.items declarer.now.option ≡ None)
        × (option_if_told dummy.now.conditions.items dummy.now.option ≡ None))
        (λ option. first_told (option_if_told declarer.now.conditions.items declarer.now.option)
        (option_if_told dummy.now.conditions.items dummy.now.option) ≡ Some option) }
{
    match (declarer.option_if_told(), dummy.option_if_told()) {
        (Some(option), _) | (None, Some(option)) => Err(option),
        (None, None) => Ok(Conditions { left, right }),
    }
}

/// The conditions on the defenders' hands. The fault is the option that tells conditions on a hand
/// of declarer's side.
pub(crate) fn for_defenders(
    declarer: Compass,
    conditions: SeatConditions,
) -> Result<Conditions, OptionName>
    ensures { MatchResult result
        (λ both. AreOnDefenders declarer conditions both.left.items both.right.items)
        (λ option. told_of_ours declarer conditions ≡ Some option) }
{
    let SeatConditions {
        north,
        east,
        south,
        west,
    } = conditions;
    match declarer {
        Compass::N => on_defenders(
            &Told::new(OptionName::North, north),
            east,
            &Told::new(OptionName::South, south),
            west,
        ),
        Compass::E => on_defenders(
            &Told::new(OptionName::East, east),
            south,
            &Told::new(OptionName::West, west),
            north,
        ),
        Compass::S => on_defenders(
            &Told::new(OptionName::South, south),
            west,
            &Told::new(OptionName::North, north),
            east,
        ),
        Compass::W => on_defenders(
            &Told::new(OptionName::West, west),
            north,
            &Told::new(OptionName::East, east),
            south,
        ),
    }
}
