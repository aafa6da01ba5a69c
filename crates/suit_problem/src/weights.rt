//! What the divisions of the missing cards weigh.
ghost use Rattle.std.specs.Prelude.{◌≡◌, ◌≤◌, ◌-◌, length};
ghost use Rattle.suit_problem.specs.SuitTexts.{division_weight};

use crate::reading::above_lowest;
use card_sets::CardSet;
use layout_maker::Choices;

// For each number of missing cards, what the weights of all divisions have in common.
const COMMONS: [u64; 9] = [
    10_400_600, 5_200_300, 208_012, 104_006, 4_522, 4_522, 646, 646, 34,
];

// As many cards as the defenders hold besides this many of the suit. Which ones doesn't matter here.
fn others(missing: u8) -> CardSet
    requires { missing ≤ 8 }
    ensures { length result ≡ 26 - missing }
{
    above_lowest(CardSet::pack(), 26 + missing)
}

/// The weight of a division in which West has `west` of the missing cards: vacant spaces, over what
/// all weights have in common.
pub(crate) fn division_weight(missing: u8, west: u8) -> u64
    requires few { missing ≤ 8 }
    ensures { result ≡ division_weight missing west }
{
    let choices = Choices {
        sure: CardSet::empty(),
        free: others(missing),
        wanted: 13_u8.saturating_sub(west),
    };
    choices.count() / COMMONS[usize::from(missing)]
}
