//! What all at the table know, and the laws of play.
ghost use Rattle.std.specs.Prelude.{◌≡◌, ◌<◌, ◌≤◌, ◌↔◌, ◌∷◌, ◌++◌, [], length, true, IsTrue, IsSome, IfSome};
ghost use Rattle.card_sets.specs.SetWords.{has_card, IsCardSet};
ghost use Rattle.trick_rules.specs.Positions.{to_play as seat_to_play, tricks_left as count_of_tricks, has_played as seat_has_played, places_on as count_of_places, seat_place, IsSound, FitsLeft, HandsFit, position_between_tricks};
ghost use Rattle.trick_rules.specs.Play.{is_over, decided as result_of, is_declarers, legal_cards, legal_in as legal_cards_in, winning_place, held_by as cards_held_by, hand_of, after_card, CanPlay};

use crate::trick::{Trick, seat_after};
use crate::trump::Trump;
use card_sets::{Card, CardSet, Seat};
use std::marker::Model;

/// A position: declarer's and dummy's hands, the cards that the two defenders hold together, the
/// present trick, the tricks that declarer's side still needs, and trumps.
///
/// It is sound: no card is in two of these places, the trick has fewer than four cards, the need is
/// at most 13, and each seat has one card for each trick left, less the one that it has played to
/// the trick.
#[derive(Debug, Drop)]
pub struct Position {
    pub declarer: CardSet,
    pub dummy: CardSet,
    pub unseen: CardSet,
    pub trick: Trick,
    pub need: u8,
    pub trump: Trump,
}

impl Model for Position {
    ghost use Rattle.trick_rules.specs.Positions.{PositionValue, IsSound};

    ghost Value = { PositionValue };

    ghost view = { λ p. record {
      declarer = p.declarer;
      dummy = p.dummy;
      unseen = p.unseen;
      trick = p.trick;
      need = p.need;
      trump = p.trump;
    } };

    ghost invariant = { λ p. IsSound (record {
      declarer = p.declarer;
      dummy = p.dummy;
      unseen = p.unseen;
      trick = p.trick;
      need = p.need;
      trump = p.trump;
    }) };
}

impl Position {
    #[tactic(auto, using(crate::proofs::BetweenTricks::between_tricks_sound, crate::proofs::BetweenTricks::hands_from_sound))]
    /// The position with no card in the trick: `None` exactly when it would not be sound.
    pub fn between_tricks(
        declarer: CardSet,
        dummy: CardSet,
        unseen: CardSet,
        leader: Seat,
        need: u8,
        trump: Trump,
    ) -> Option<Position>
        ensures sound { IsSome result
            ↔ IsSound (position_between_tricks declarer dummy unseen leader need trump) }
        ensures value { IfSome result
            (λ p. p ≡ position_between_tricks declarer dummy unseen leader need trump) }
    {
        if hands_fit(declarer, dummy, unseen) && need <= 13 {
            Some(Position {
                declarer,
                dummy,
                unseen,
                trick: Trick::led_by(leader),
                need,
                trump,
            })
        } else {
            None
        }
    }

    /// The seat to play: clockwise from the leader, past the cards of the trick.
    pub fn to_play(&self) -> Seat
        ensures value { result ≡ seat_to_play self.now }
        ensures sound { IsSound self.now }
    {
        self.trick.to_play()
    }

    /// The tricks left, the present one among them.
    #[tactic(auto, using(crate::proofs::CardLists::at_most_52))]
    pub fn tricks_left(&self) -> u8
        ensures value { result ≡ count_of_tricks self.now }
        ensures sound { IsSound self.now }
    {
        let present = if self.has_played(Seat::Declarer) {
            1
        } else {
            0
        };
        self.declarer.count() + present
    }

    /// Whether the seat has a card in the trick.
    fn has_played(&self, seat: Seat) -> bool
        ensures { result ≡ seat_has_played self.now seat }
    {
        usize::from(places_on(self.trick.leader, seat)) < self.trick.cards.len()
    }

    /// Whether no tricks are left.
    pub fn over(&self) -> bool
        ensures value { result ≡ is_over self.now }
        ensures sound { IsSound self.now }
    {
        self.tricks_left() == 0
    }

    /// What is certain already: `Some(true)` exactly when the need is 0, `Some(false)` exactly when
    /// it is greater than the tricks left.
    pub fn decided(&self) -> Option<bool>
        ensures { result ≡ result_of self.now }
    {
        if self.need == 0 {
            Some(true)
        } else if self.need > self.tricks_left() {
            Some(false)
        } else {
            None
        }
    }

    /// Whether declarer or dummy is to play.
    pub fn is_ours(&self) -> bool
        ensures { result ≡ is_declarers (seat_to_play self.now) }
    {
        is_ours(self.to_play())
    }

    /// Whether Left may hold just these cards: a part of the unseen cards, with Left's number of
    /// cards.
    #[tactic(auto, using(crate::proofs::CardLists::at_most_52))]
    pub fn fits(&self, left: CardSet) -> bool
        ensures { IsTrue result ↔ FitsLeft self.now left }
    {
        let present = if self.has_played(Seat::Left) { 1 } else { 0 };
        left.count() + present == self.tricks_left() && left.is_subset(self.unseen)
    }

    /// The cards among which those of a seat are: its hand, or the unseen cards for a defender.
    pub fn held_by(&self, seat: Seat) -> CardSet
        ensures { result ≡ cards_held_by self.now seat }
    {
        match seat {
            Seat::Declarer => self.declarer,
            Seat::Dummy => self.dummy,
            Seat::Left | Seat::Right => self.unseen,
        }
    }

    /// The cards of a seat where Left holds these.
    pub fn hand(&self, seat: Seat, left: CardSet) -> CardSet
        ensures { result ≡ hand_of (record { position = self.now; left = left }) seat }
    {
        match seat {
            Seat::Declarer => self.declarer,
            Seat::Left => left,
            Seat::Dummy => self.dummy,
            Seat::Right => self.unseen.minus(left),
        }
    }

    /// The legal cards of the seat to play where Left holds these.
    pub fn legal_in(&self, left: CardSet) -> CardSet
        ensures { result ≡ legal_cards_in (record { position = self.now; left = left }) }
    {
        legal(self, self.hand(self.to_play(), left))
    }

    /// An equal position. It takes no memory.
    pub fn copy(&self) -> Position
        ensures { result ≡ self.now }
    {
        Position {
            declarer: self.declarer,
            dummy: self.dummy,
            unseen: self.unseen,
            trick: self.trick.copy(),
            need: self.need,
            trump: self.trump,
        }
    }

    // Whether the two are the same position.
    pub(crate) fn equals(&self, other: &Position) -> bool
        ensures { IsTrue result ↔ (self.now ≡ other.now) }
    {
        let same_cards = self.unseen == other.unseen
            && self.declarer == other.declarer
            && self.dummy == other.dummy;
        same_cards
            && self.need == other.need
            && self.trump == other.trump
            && self.trick.equals(&other.trick)
    }
}

// Whether no card is in two of the three sets, dummy's hand is as large as declarer's, and the
// defenders hold twice as many.
#[tactic(auto, using(crate::proofs::CardLists::at_most_52))]
fn hands_fit(declarer: CardSet, dummy: CardSet, unseen: CardSet) -> bool
    ensures { IsTrue result ↔ HandsFit declarer dummy unseen }
{
    let apart = declarer.is_disjoint(dummy)
        && declarer.is_disjoint(unseen)
        && dummy.is_disjoint(unseen);
    apart
        && dummy.count() == declarer.count()
        && unseen.count() == declarer.count() + declarer.count()
}

/// How many places a seat sits after the leader, clockwise.
pub fn places_on(leader: Seat, seat: Seat) -> u8
    ensures value { result ≡ count_of_places leader seat }
    ensures below { result < 4 }
{
    (place(seat) + 4 - place(leader)) % 4
}

// Declarer, Left, dummy and Right, clockwise from 0.
fn place(seat: Seat) -> u8
    ensures value { result ≡ seat_place seat }
    ensures below { result < 4 }
{
    match seat {
        Seat::Declarer => 0,
        Seat::Left => 1,
        Seat::Dummy => 2,
        Seat::Right => 3,
    }
}

/// The cards of a hand that may be played to the present trick.
pub fn legal(position: &Position, hand: CardSet) -> CardSet
    ensures { result ≡ legal_cards position.now.trick.cards hand }
{
    position.trick.legal(hand)
}

// Whether the seat is declarer's or dummy's.
fn is_ours(seat: Seat) -> bool
    ensures { result ≡ is_declarers seat }
{
    match seat {
        Seat::Declarer | Seat::Dummy => true,
        Seat::Left | Seat::Right => false,
    }
}

// The trick and the need after a card. The fourth card ends the trick.
fn trick_after(position: &Position, card: Card) -> (Trick, u8)
    ensures trick { result.0 ≡ (after_card position.now card).trick }
    ensures need { result.1 ≡ (after_card position.now card).need }
{
    let mut trick = position.trick.copy();
    trick.add(position.trump, card);
    let won = trick.cards.is_empty() && is_ours(trick.leader);
    let need = if won {
        position.need.saturating_sub(1)
    } else {
        position.need
    };
    (trick, need)
}

/// The position after the seat to play has played a card of its hand or, for a defender, an unseen
/// card.
///
/// The fourth card ends the trick: its winner leads, and the need falls by one, not below 0, where
/// declarer's side won.
pub fn play(position: &Position, card: Card) -> Position
    requires { CanPlay position.now card }
    ensures value { result ≡ after_card position.now card }
    ensures sound { IsSound result }
{
    let (trick, need) = trick_after(position, card);
    Position {
        declarer: position.declarer.without(card),
        dummy: position.dummy.without(card),
        unseen: position.unseen.without(card),
        trick,
        need,
        trump: position.trump,
    }
}

/// The position after the fourth card of a trick, if the card at this place wins it.
pub fn end_trick(position: &Position, card: Card, place: usize) -> Position
    requires held { CanPlay position.now card }
    requires fourth { length position.now.trick.cards ≡ 3 }
    requires within { place < 4 }
    requires wins { place
        ≡ winning_place position.now.trump (position.now.trick.cards ++ card ∷ []) }
    ensures value { result ≡ after_card position.now card }
    ensures sound { IsSound result }
{
    let leader = seat_after(place, position.trick.leader);
    let need = if is_ours(leader) {
        position.need.saturating_sub(1)
    } else {
        position.need
    };
    Position {
        declarer: position.declarer.without(card),
        dummy: position.dummy.without(card),
        unseen: position.unseen.without(card),
        trick: Trick::led_by(leader),
        need,
        trump: position.trump,
    }
}
