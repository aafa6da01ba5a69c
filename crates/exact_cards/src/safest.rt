//! The card that is named.
ghost use Rattle.std.specs.Prelude.{◌<◌, length};
ghost use Rattle.exact_cards.specs.ExactRows.{IsSafestCard};

use card_brackets::CardRow;
use card_sets::Card;

/// The card of the first row with the greatest `least`.
pub fn safest_card(rows: &[CardRow]) -> Card
    requires { 0 < length rows.now }
    ensures { IsSafestCard rows.now result }
{
    let mut best = rows[0];
    for place in 1..rows.len() {
        let row = rows[place];
        if row.least > best.least {
            best = row;
        }
    }
    best.card
}
