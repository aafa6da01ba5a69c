//! A trick, and its winner.
ghost use Rattle.std.specs.Prelude.{◌≡◌, ◌≤◌, ◌<◌, ◌↔◌, ◌⊎◌, ◌∷◌, ◌++◌, true, length, [], IsTrue};
ghost use Rattle.card_sets.specs.Cards.{suit_of};
ghost use Rattle.card_sets.specs.declared.card.Suit.{Suit};
ghost use Rattle.trick_rules.specs.Positions.{seat_after as seat_that_many_on};
ghost use Rattle.trick_rules.specs.Play.{suit_led, legal_cards, is_trump as is_trump_card, beats, winning_place as winning_place_of, next_trick, winner_of};

use crate::trump::Trump;
use arrayvec::ArrayVec;
use card_sets::{Card, CardSet, Seat, Suit};
use std::marker::Model;

/// A trick: who led to it, and its cards in the order of play.
#[derive(Debug, Drop)]
pub struct Trick {
    pub leader: Seat,
    pub cards: ArrayVec<Card, 4>,
}

impl Model for Trick {
    ghost use Rattle.trick_rules.specs.Positions.{TrickValue};

    ghost Value = { TrickValue };

    ghost view = { λ trick. record { leader = trick.leader; cards = trick.cards.items } };
}

impl Trick {
    /// A trick with no card yet.
    pub fn led_by(leader: Seat) -> Trick
        ensures { result ≡ record { leader = leader; cards = [] } }
    {
        Trick {
            leader,
            cards: ArrayVec::new(),
        }
    }

    /// The suit led: `None` exactly when the trick has no card.
    pub fn suit_led(&self) -> Option<Suit>
        ensures { result ≡ suit_led self.now.cards }
    {
        Some(self.cards.first()?.suit())
    }

    /// The seat to play: clockwise from the leader, past the cards of the trick.
    pub fn to_play(&self) -> Seat
        ensures { result ≡ seat_that_many_on (length self.now.cards) self.now.leader }
    {
        seat_after(self.cards.len(), self.leader)
    }

    /// The cards of a hand that may be played to the trick: those of the suit led if the hand has
    /// any, else the whole hand; the whole hand for the leader.
    pub fn legal(&self, hand: CardSet) -> CardSet
        ensures { result ≡ legal_cards self.now.cards hand }
    {
        let Some(suit) = self.suit_led() else {
            return hand;
        };
        let following = hand.of_suit(suit);
        if following.is_empty() {
            hand
        } else {
            following
        }
    }

    /// The place of the card that wins the trick that this card ends.
    pub fn winning_place(&self, trump: Trump, last: Card) -> usize
        requires { length self.now.cards ≡ 3 }
        ensures value { result ≡ winning_place_of trump (self.now.cards ++ last ∷ []) }
        ensures within { result < 4 }
    {
        let cards = self.cards.as_slice();
        let best = best_place(trump, cards);
        if takes(trump, cards[best], last) {
            3
        } else {
            best
        }
    }

    /// Adds a card to a trick that has fewer than four. After the fourth card its winner leads to
    /// the next trick.
    pub fn add(&mut self, trump: Trump, card: Card)
        requires { length self.old.cards < 4 }
        ensures value { self.new ≡ next_trick trump self.old card }
        ensures short { length self.new.cards < 4 }
    {
        self.cards.push(card);
        if self.cards.len() == 4 {
            *self = Trick::led_by(winner(self, trump));
        }
    }

    /// An equal trick. It takes no memory.
    pub fn copy(&self) -> Trick
        ensures { result ≡ self.now }
    {
        let mut cards = ArrayVec::new();
        for card in self.cards.as_slice() {
            cards.push(*card);
        }
        Trick {
            leader: self.leader,
            cards,
        }
    }

    // Whether the two have the same leader and the same cards.
    pub(crate) fn equals(&self, other: &Trick) -> bool
        ensures { IsTrue result ↔ (self.now ≡ other.now) }
    {
        self.leader == other.leader && self.cards.as_slice() == other.cards.as_slice()
    }
}

// Whether a card beats the best one of the trick so far, which is a trump or of the suit led.
fn takes(trump: Trump, best: Card, card: Card) -> bool
    ensures { (led : Suit) → (is_trump_card trump best ≡ true) ⊎ (suit_of best ≡ led)
        → result ≡ beats trump led card best }
{
    if card.suit() == best.suit() {
        best.number() < card.number()
    } else {
        is_trump(trump, card)
    }
}

fn is_trump(trump: Trump, card: Card) -> bool
    ensures { result ≡ is_trump_card trump card }
{
    match trump {
        Trump::Suit(suit) => card.suit() == suit,
        Trump::NoTrump => false,
    }
}

/// The seat that many places on, clockwise: at most once round the table.
pub(crate) fn seat_after(places: usize, seat: Seat) -> Seat
    requires { places ≤ 4 }
    ensures { result ≡ seat_that_many_on places seat }
{
    match places {
        1 => seat.next(),
        2 => seat.next().next(),
        3 => seat.next().next().next(),
        _ => seat,
    }
}

// The place of the card that wins among the cards of a trick so far.
fn best_place(trump: Trump, cards: &[Card]) -> usize
    requires { 1 ≤ length cards.now }
    ensures value { result ≡ winning_place_of trump cards.now }
    ensures within { result < length cards.now }
{
    let mut best = 0;
    for place in 1..cards.len() {
        if takes(trump, cards[best], cards[place]) {
            best = place;
        }
    }
    best
}

/// The winner of a trick of four cards: the seat of the highest trump, or if there is none of the
/// highest card of the suit led.
pub fn winner(trick: &Trick, trump: Trump) -> Seat
    requires { length trick.now.cards ≡ 4 }
    ensures { result ≡ winner_of trump trick.now }
{
    seat_after(best_place(trump, trick.cards.as_slice()), trick.leader)
}
