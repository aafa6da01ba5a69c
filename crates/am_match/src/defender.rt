//! A defender.
ghost use Rattle.std.specs.Prelude.{◌≡◌, ◌≢◌, ℕ, List, [], ◌∷◌, Option, Some, false, IfOk, IfErr, slice_get};
ghost use Rattle.trick_rules.specs.Play.{is_over};
ghost use Rattle.am_match.specs.Defences.{MayPlay, with_told};

use card_sets::{Card, CardSet};
use std::alloc::AllocError;
use trick_rules::Position;

/// Plays the cards of a defender.
///
/// It has a style, a number that never changes: one of style 1 plays the first legal card in card
/// order, one of style 2 the last, and one of any other style promises no more than a legal card.
/// It may keep a record of the cards that it was told.
pub trait Defender: Drop {
    ghost style: { Self → ℕ };

    ghost heard: { Self → Option (List ℕ) };

    /// The card that it plays from its hand, where play isn't over and the hand isn't empty. The
    /// layout is its place in the node's order, counted from 1.
    fn choose(&mut self, position: &Position, hand: CardSet, layout: u16) -> Card
        requires going_on { is_over position.now ≡ false }
        requires holds_cards { hand ≢ [] }
        ensures may { MayPlay (style self.old) position.now hand result }
        ensures same_style { style self.new ≡ style self.old }
        ensures same_record { heard self.new ≡ heard self.old };

    /// Reports a card that was played. If an allocation fails, the defender's record stays as it
    /// was.
    fn saw(&mut self, card: Card) -> Result<(), AllocError>
        ensures same_style { style self.new ≡ style self.old }
        ensures recorded { IfOk result
            (λ _. heard self.new ≡ with_told (card ∷ []) (heard self.old)) }
        ensures refused { IfErr result (λ _. heard self.new ≡ heard self.old) };

    /// The card at a place of the defender's record, counted from 0; `None` exactly when there is
    /// none. Nothing is promised of a defender that keeps no record.
    fn heard_at(&self, place: usize) -> Option<Card>
        ensures { (cards : List ℕ) → heard self.now ≡ Some cards
            → result ≡ slice_get cards place };
}
