//! Hands, who leads, trumps and the need: a position once the cards of the trick are known.
ghost use Rattle.std.specs.Prelude.{◌≡◌, ◌<◌, ◌≤◌, ◌||◌, ◌↔◌, All, IfSome, IsSome, IsTrue, length};
ghost use Rattle.card_sets.specs.SetWords.{has_card, Apart, IsCardSet};
ghost use Rattle.trick_rules.specs.Positions.{played_count, IsSound};
ghost use Rattle.bit_questions.specs.Causes.{HaveSizes, LacksPart};
ghost use Rattle.bit_questions.specs.Tables.{position_of, put_back};

use crate::fault::QuestionFault;
use crate::numbers::seat_after;
use card_sets::{Card, CardSet, Seat};
use trick_rules::{Position, Trump, places_on, play};

/// What a position has besides the cards of its trick.
#[derive(Clone, Copy, Debug)]
pub struct Table {
    pub declarer: CardSet,
    pub dummy: CardSet,
    pub unseen: CardSet,
    pub leader: Seat,
    pub need: u8,
    pub trump: Trump,
}

impl Table {
    // Whether some hand has the card.
    fn has(&self, card: Card) -> bool
        ensures value { result ≡ (has_card self.now.declarer card
            || has_card self.now.dummy card || has_card self.now.unseen card) }
        ensures declarer { IsCardSet self.now.declarer }
        ensures dummy { IsCardSet self.now.dummy }
        ensures unseen { IsCardSet self.now.unseen }
    {
        let (declarer, dummy) = (self.declarer.has(card), self.dummy.has(card));
        let unseen = self.unseen.has(card);
        declarer || dummy || unseen
    }

    // The same with a card back in the hand of the seat that played it.
    fn with_back(&self, seat: Seat, card: Card) -> Table
        ensures { result ≡ put_back self.now seat card }
    {
        let mut table = *self;
        match seat {
            Seat::Declarer => table.declarer = table.declarer.with(card),
            Seat::Dummy => table.dummy = table.dummy.with(card),
            Seat::Left | Seat::Right => table.unseen = table.unseen.with(card),
        }
        table
    }

    /// The position with these cards in the trick, in the order of play: `None` exactly when it
    /// would not be sound.
    pub fn position(&self, trick: &[u32]) -> Option<Position>
        requires short { length trick.now < 4 }
        requires cards { All (λ c. c < 52) trick.now }
        ensures value { IfSome result (λ p. p ≡ position_of self.now trick.now) }
        ensures sound { IsSome result ↔ IsSound (position_of self.now trick.now) }
    {
        let Some((last, before)) = trick.split_last() else {
            return Position::between_tricks(
                self.declarer,
                self.dummy,
                self.unseen,
                self.leader,
                self.need,
                self.trump,
            );
        };
        let card = Card::from_number(*last as u8);
        if self.has(card) {
            return None;
        }
        let seat = seat_after(self.leader, before.len());
        let earlier = self.with_back(seat, card).position(before)?;
        Some(play(&earlier, card))
    }

    // Whether no card is in two hands.
    fn are_apart(&self) -> bool
        ensures { IsTrue result ↔ (Apart self.now.declarer self.now.dummy
            × Apart self.now.declarer self.now.unseen × Apart self.now.dummy self.now.unseen) }
    {
        self.declarer.is_disjoint(self.dummy)
            && self.declarer.is_disjoint(self.unseen)
            && self.dummy.is_disjoint(self.unseen)
    }

    // How many cards of the trick are the seat's.
    fn played_by(&self, seat: Seat, trick: &[u32]) -> u8
        ensures value { result ≡ played_count (position_of self.now trick.now) seat }
        ensures most { result ≤ 1 }
    {
        if usize::from(places_on(self.leader, seat)) < trick.len() {
            1
        } else {
            0
        }
    }

    // Whether the hands have sizes that go with each other and with the trick.
    #[tactic(auto, using(trick_rules::proofs::CardLists::at_most_52))]
    fn have_sizes(&self, trick: &[u32]) -> bool
        ensures sizes { IsTrue result ↔ HaveSizes (position_of self.now trick.now) }
        ensures declarer { IsCardSet self.now.declarer }
        ensures dummy { IsCardSet self.now.dummy }
        ensures unseen { IsCardSet self.now.unseen }
    {
        let tricks = self.declarer.count() + self.played_by(Seat::Declarer, trick);
        let dummy = self.dummy.count() + self.played_by(Seat::Dummy, trick);
        let defenders = self.played_by(Seat::Left, trick) + self.played_by(Seat::Right, trick);
        let unseen = self.unseen.count() + defenders;
        dummy == tricks && unseen == 2 * tricks
    }

    /// Why there is no position with these cards in the trick.
    pub fn fault(&self, trick: &[u32]) -> QuestionFault
        requires short { length trick.now < 4 }
        requires cards { All (λ c. c < 52) trick.now }
        requires need { self.now.need ≤ 13 }
        requires unsound { IsSound (position_of self.now trick.now) → ⊥ }
        ensures { LacksPart (position_of self.now trick.now) result }
    {
        if !self.are_apart() {
            QuestionFault::Overlap
        } else if !self.have_sizes(trick) {
            QuestionFault::Sizes
        } else {
            QuestionFault::PlayedTwice
        }
    }
}
