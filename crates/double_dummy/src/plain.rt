//! Plain minimax, the program beside which every faster one stands.
ghost use Rattle.std.specs.Prelude.{◌≡◌};
ghost use Rattle.trick_rules.specs.Positions.{FitsLeft};
ghost use Rattle.trick_rules.specs.Play.{makes};

use card_sets::CardSet;
use trick_rules::{Position, play};

/// Whether declarer's side takes the need where Left holds these cards, with all cards seen by all.
///
/// Each legal card is played to the end, in card order, until one settles the answer. It takes no
/// memory.
pub fn makes_plain(position: &Position, left: CardSet) -> bool
    requires { FitsLeft position.now left }
    ensures { result ≡ makes (record { position = position.now; left = left }) }
{
    if position.over() {
        return position.need == 0;
    }
    let ours = position.is_ours();
    let mut cards = position.legal_in(left);
    while let Some(card) = cards.pop_first() {
        // Declarer's side looks for a card that makes, a defender for one that doesn't.
        if makes_plain(&play(position, card), left.without(card)) == ours {
            return ours;
        }
    }
    !ours
}
