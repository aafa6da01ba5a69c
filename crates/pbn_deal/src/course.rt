//! The course of play, seen from the hands of declarer's side alone.
ghost use Rattle.std.specs.Prelude.{◌≡◌, ◌<◌, length};
ghost use Rattle.pbn_deal.specs.Boards.{next_course};

use card_sets::{Card, CardSet, Seat};
use trick_rules::{Trick, Trump};

/// The hands of declarer's side at some moment, and the present trick.
#[derive(Debug, Drop)]
pub struct Course {
    pub declarer: CardSet,
    pub dummy: CardSet,
    pub trick: Trick,
}

impl Course {
    /// Plays a card of the seat to play. A defender's card leaves neither of the two hands.
    pub fn play(&mut self, trump: Trump, card: Card)
        requires { length self.old.trick.cards < 4 }
        ensures value { self.new ≡ next_course trump self.old card }
        ensures short { length self.new.trick.cards < 4 }
    {
        match self.trick.to_play() {
            Seat::Declarer => self.declarer = self.declarer.without(card),
            Seat::Dummy => self.dummy = self.dummy.without(card),
            Seat::Left | Seat::Right => {}
        }
        self.trick.add(trump, card);
    }
}
