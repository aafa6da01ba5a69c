//! A board: the hands of declarer's side as they were dealt, and the play so far.
ghost use Rattle.std.specs.Prelude.{◌≡◌, ◌≤◌, length, IfOk};
ghost use Rattle.pbn_deal.specs.Boards.{compass_of, seat_of, dealt_board, IsDealt, IsBoard, turn_of};
ghost use Rattle.pbn_deal.specs.Moments.{board_before};

use crate::tags::Ending;
use card_sets::{Card, CardSet, Compass, Seat};
use std::alloc::{AllocError, Global};
use std::marker::Model;
use trick_rules::{Trick, Trump};

/// A card, and the seat that played it.
#[derive(Clone, Copy, Debug, PartialEq, Eq)]
pub struct Played {
    pub seat: Seat,
    pub card: Card,
}

/// The place of a seat, going clockwise from declarer's.
pub fn compass_of(declarer: Compass, seat: Seat) -> Compass
    ensures { result ≡ compass_of declarer seat }
{
    match seat {
        Seat::Declarer => declarer,
        Seat::Left => declarer.next(),
        Seat::Dummy => declarer.next().next(),
        Seat::Right => declarer.next().next().next(),
    }
}

/// The seat at a place, as declarer sees the table.
pub fn seat_of(declarer: Compass, place: Compass) -> Seat
    ensures { result ≡ seat_of declarer place }
{
    if place == compass_of(declarer, Seat::Declarer) {
        Seat::Declarer
    } else if place == compass_of(declarer, Seat::Left) {
        Seat::Left
    } else if place == compass_of(declarer, Seat::Dummy) {
        Seat::Dummy
    } else {
        Seat::Right
    }
}

/// The hands as they were dealt: declarer's, dummy's, and what the two defenders hold together, if
/// the file tells it.
#[derive(Clone, Copy, Debug)]
pub(crate) struct DealtHands {
    pub declarer: CardSet,
    pub dummy: CardSet,
    pub unseen: Option<CardSet>,
}

/// A sound board: hands, need, leader and unseen cards are those before the first played card.
///
/// The need is the tricks that declarer's side must take, 0 to 13. The unseen cards are those that
/// the two defenders hold together, `None` if the file doesn't tell them.
#[derive(Debug, Drop)]
pub struct Board {
    declarer: Compass,
    trump: Trump,
    need: u8,
    leader: Seat,
    declarer_hand: CardSet,
    dummy_hand: CardSet,
    unseen: Option<CardSet>,
    plays: Vec<Played>,
}

impl Model for Board {
    ghost use Rattle.pbn_deal.specs.Boards.{BoardValue, IsBoard};

    ghost Value = { BoardValue };

    ghost view = { λ board. record {
      declarer = board.declarer;
      trump = board.trump;
      need = board.need;
      leader = board.leader;
      declarer_hand = board.declarer_hand;
      dummy_hand = board.dummy_hand;
      unseen = board.unseen;
      plays = board.plays.items;
    } };

    ghost invariant = { λ board. IsBoard (record {
      declarer = board.declarer;
      trump = board.trump;
      need = board.need;
      leader = board.leader;
      declarer_hand = board.declarer_hand;
      dummy_hand = board.dummy_hand;
      unseen = board.unseen;
      plays = board.plays.items;
    }) };
}

impl Board {
    // A board of which no card has been played.
    pub(crate) fn new(
        alloc: Global,
        declarer: Compass,
        trump: Trump,
        ending: Ending,
        hands: DealtHands,
    ) -> Board
        requires { IsDealt (dealt_board declarer trump ending.need ending.leader
            hands.declarer hands.dummy hands.unseen) }
        ensures { result ≡ dealt_board declarer trump ending.need ending.leader
            hands.declarer hands.dummy hands.unseen }
    {
        Board {
            declarer,
            trump,
            need: ending.need,
            leader: ending.leader,
            declarer_hand: hands.declarer,
            dummy_hand: hands.dummy,
            unseen: hands.unseen,
            plays: Vec::new(alloc),
        }
    }

    // The board after these cards, in place of those that it had.
    pub(crate) fn with_plays(mut self, plays: Vec<Played>) -> Board
        requires { IsBoard (record self { plays = plays.items }) }
        ensures { result ≡ record self { plays = plays.items } }
    {
        self.plays = plays;
        self
    }

    /// Declarer's place at the table.
    pub fn declarer(&self) -> Compass
        ensures { result ≡ self.now.declarer }
    {
        self.declarer
    }

    /// The place of a seat at the table.
    pub fn compass(&self, seat: Seat) -> Compass
        ensures { result ≡ compass_of self.now.declarer seat }
    {
        compass_of(self.declarer, seat)
    }

    pub fn trump(&self) -> Trump
        ensures { result ≡ self.now.trump }
    {
        self.trump
    }

    /// The tricks that declarer's side needed before the first played card, 0 to 13.
    pub fn need(&self) -> u8
        ensures value { result ≡ self.now.need }
        ensures sound { IsBoard self.now }
    {
        self.need
    }

    /// The seat that leads first.
    pub fn leader(&self) -> Seat
        ensures { result ≡ self.now.leader }
    {
        self.leader
    }

    /// Declarer's hand before the first played card.
    pub fn declarer_hand(&self) -> CardSet
        ensures value { result ≡ self.now.declarer_hand }
        ensures sound { IsBoard self.now }
    {
        self.declarer_hand
    }

    /// Dummy's hand before the first played card.
    pub fn dummy_hand(&self) -> CardSet
        ensures value { result ≡ self.now.dummy_hand }
        ensures sound { IsBoard self.now }
    {
        self.dummy_hand
    }

    /// The cards that the two defenders held together before the first played card, if the file
    /// tells them.
    pub fn unseen(&self) -> Option<CardSet>
        ensures value { result ≡ self.now.unseen }
        ensures sound { IsBoard self.now }
    {
        self.unseen
    }

    /// The cards played so far, in the order of play.
    pub fn plays(&self) -> &[Played]
        ensures value { result.now ≡ self.now.plays }
        ensures sound { IsBoard self.now }
    {
        &self.plays
    }

    /// The board as it was before the card at a place of its play, which is counted from 0. The
    /// place may be the one after the last card.
    pub fn before(&self, alloc: Global, place: usize) -> Result<Board, AllocError>
        requires { place ≤ length self.now.plays }
        ensures { IfOk result (λ board. board ≡ board_before self.now place) }
    {
        Ok(Board {
            declarer: self.declarer,
            trump: self.trump,
            need: self.need,
            leader: self.leader,
            declarer_hand: self.declarer_hand,
            dummy_hand: self.dummy_hand,
            unseen: self.unseen,
            plays: Vec::from_slice(alloc, &self.plays[..place])?,
        })
    }

    /// The seat to play after the plays: `None` exactly when the play is over. It takes no memory.
    pub fn turn(&self) -> Option<Seat>
        ensures { result ≡ turn_of self.now }
    {
        if self.plays.len() == 4 * self.declarer_hand.count() as usize {
            return None;
        }
        let mut trick = Trick::led_by(self.leader);
        for play in &self.plays {
            trick.add(self.trump, play.card);
        }
        Some(trick.to_play())
    }
}
