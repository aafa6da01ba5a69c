//! The cards in play.
ghost use Rattle.std.specs.Prelude.{◌≡◌};
ghost use Rattle.card_sets.specs.SetWords.{has_card, cards_where};
ghost use Rattle.double_dummy.specs.Equals.{in_play};

use card_sets::CardSet;
use trick_rules::{Position, Trick};

// The cards of a trick.
fn cards_of(trick: &Trick) -> CardSet
    ensures { result ≡ cards_where (has_card trick.now.cards) }
{
    let mut cards = CardSet::empty();
    for card in trick.cards.as_slice() {
        cards = cards.with(*card);
    }
    cards
}

/// The cards of all hands and of the present trick.
pub fn cards_in_play(position: &Position) -> CardSet
    ensures { result ≡ cards_where (in_play position.now) }
{
    let ours = position.declarer.either(position.dummy);
    let held = ours.either(position.unseen);
    let played = cards_of(&position.trick);
    held.either(played)
}
