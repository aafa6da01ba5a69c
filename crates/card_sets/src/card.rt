//! A card by its place in card order, its suit and its rank.
ghost use Rattle.std.specs.Prelude.{◌≡◌, ◌<◌, ◌≤◌, ◌∷◌, [], map};
ghost use Rattle.card_sets.specs.Cards.{suit_place, card_of, suit_of, rank_of};

use std::marker::Model;

/// A suit, in card order.
#[derive(Clone, Copy, Debug, PartialEq, Eq, Hash)]
pub enum Suit {
    Spades,
    Hearts,
    Diamonds,
    Clubs,
}

impl Suit {
    /// The four suits in card order.
    pub const ALL: [Suit; 4] = [Suit::Spades, Suit::Hearts, Suit::Diamonds, Suit::Clubs];
}

/// `Suit::ALL` has each suit at its place in card order. The call does nothing: its contract is the
/// law.
pub fn suits_are_in_card_order()
    ensures { map suit_place Suit.ALL ≡ 0 ∷ 1 ∷ 2 ∷ 3 ∷ [] }
{}

/// A rank: 2 to 10, and 11 to 14 for the jack, queen, king and ace.
#[derive(Clone, Copy, Debug, PartialEq, Eq, PartialOrd, Ord, Hash)]
pub struct Rank {
    number: u8,
}

impl Model for Rank {
    ghost use Rattle.std.specs.Prelude.{ℕ, ◌≤◌};

    ghost Value = { ℕ };

    ghost view = { λ rank. rank.number };

    ghost invariant = { λ rank. (2 ≤ rank.number) × (rank.number ≤ 14) };

    ghost inverse = { λ number. record { number = number } };
}

impl Rank {
    /// The rank of a number from 2 to 14.
    pub fn new(number: u8) -> Rank
        requires low { 2 ≤ number }
        requires high { number ≤ 14 }
        ensures { result ≡ number }
    {
        Rank { number }
    }

    /// 2 to 14.
    pub fn number(self) -> u8
        ensures value { result ≡ self }
        ensures low { 2 ≤ self }
        ensures high { self ≤ 14 }
    {
        self.number
    }
}

/// A card, ordered as cards are listed: spades, hearts, diamonds, clubs, and 2 to the ace within a
/// suit.
#[derive(Clone, Copy, Debug, Default, PartialEq, Eq, PartialOrd, Ord, Hash)]
pub struct Card {
    number: u8,
}

impl Model for Card {
    ghost use Rattle.std.specs.Prelude.{ℕ, ◌<◌};

    ghost Value = { ℕ };

    ghost view = { λ card. card.number };

    ghost invariant = { λ card. card.number < 52 };

    ghost inverse = { λ number. record { number = number } };
}

impl Card {
    /// The card of a suit and a rank.
    pub fn new(suit: Suit, rank: Rank) -> Card
        ensures value { result ≡ card_of suit rank }
        ensures low { 2 ≤ rank }
        ensures high { rank ≤ 14 }
    {
        let before = match suit {
            Suit::Spades => 0,
            Suit::Hearts => 13,
            Suit::Diamonds => 26,
            Suit::Clubs => 39,
        };
        Card {
            number: before + (rank.number - 2),
        }
    }

    /// The card at a place in card order, from 0 for the two of spades to 51 for the ace of clubs.
    pub fn from_number(number: u8) -> Card
        requires { number < 52 }
        ensures { result ≡ number }
    {
        Card { number }
    }

    /// The place in card order: 0 for the two of spades to 51 for the ace of clubs.
    pub fn number(self) -> u8
        ensures value { result ≡ self }
        ensures below { self < 52 }
    {
        self.number
    }

    pub fn suit(self) -> Suit
        ensures value { result ≡ suit_of self }
        ensures below { self < 52 }
    {
        if self.number < 13 {
            Suit::Spades
        } else if self.number < 26 {
            Suit::Hearts
        } else if self.number < 39 {
            Suit::Diamonds
        } else {
            Suit::Clubs
        }
    }

    pub fn rank(self) -> Rank
        ensures value { result ≡ rank_of self }
        ensures below { self < 52 }
    {
        Rank {
            number: self.number % 13 + 2,
        }
    }
}
