//! The letters of suits, ranks, cards and compass points, as they are written and as they are read.
//! It builds on `card_sets`. What is written is upper case, and is read back as what it was written
//! of; either case is read.
#![tactic(auto)]

ghost use Rattle.std.specs.Prelude.{◌≡◌, Some};
ghost use Rattle.card_letters.specs.Letters.{
  suit_letter,
  rank_letter,
  compass_letter,
  letters_of,
  suit_read,
  rank_read,
  compass_read,
  card_read,
};

use card_sets::{Card, Compass, Rank, Suit};

/// The letter of a suit: `S`, `H`, `D` or `C`.
pub fn suit_letter(suit: Suit) -> u8
    ensures value { result ≡ suit_letter suit }
    ensures reads_back { suit_read result ≡ Some suit }
{
    match suit {
        Suit::Spades => b'S',
        Suit::Hearts => b'H',
        Suit::Diamonds => b'D',
        Suit::Clubs => b'C',
    }
}

/// The letter of a rank: `2` to `9`, then `T`, `J`, `Q`, `K` and `A`.
pub fn rank_letter(rank: Rank) -> u8
    ensures value { result ≡ rank_letter rank }
    ensures reads_back { rank_read result ≡ Some rank }
{
    match rank.number() {
        10 => b'T',
        11 => b'J',
        12 => b'Q',
        13 => b'K',
        14 => b'A',
        small => b'0' + small,
    }
}

/// The letter of a compass point.
pub fn compass_letter(compass: Compass) -> u8
    ensures value { result ≡ compass_letter compass }
    ensures reads_back { compass_read result ≡ Some compass }
{
    match compass {
        Compass::N => b'N',
        Compass::E => b'E',
        Compass::S => b'S',
        Compass::W => b'W',
    }
}

/// A card's two letters: its suit, then its rank.
pub fn letters_of(card: Card) -> [u8; 2]
    ensures { result ≡ letters_of card }
{
    [suit_letter(card.suit()), rank_letter(card.rank())]
}

/// The suit that a letter names, in either case.
pub fn read_suit(letter: u8) -> Option<Suit>
    ensures { result ≡ suit_read letter }
{
    match letter {
        b'S' | b's' => Some(Suit::Spades),
        b'H' | b'h' => Some(Suit::Hearts),
        b'D' | b'd' => Some(Suit::Diamonds),
        b'C' | b'c' => Some(Suit::Clubs),
        _ => None,
    }
}

/// The rank that a digit or a letter names, in either case.
pub fn read_rank(letter: u8) -> Option<Rank>
    ensures { result ≡ rank_read letter }
{
    let number = match letter {
        b'2'..=b'9' => letter - b'0',
        b'T' | b't' => 10,
        b'J' | b'j' => 11,
        b'Q' | b'q' => 12,
        b'K' | b'k' => 13,
        b'A' | b'a' => 14,
        _ => return None,
    };
    Some(Rank::new(number))
}

/// The compass point that a letter names, in either case.
pub fn read_compass(letter: u8) -> Option<Compass>
    ensures { result ≡ compass_read letter }
{
    match letter {
        b'N' | b'n' => Some(Compass::N),
        b'E' | b'e' => Some(Compass::E),
        b'S' | b's' => Some(Compass::S),
        b'W' | b'w' => Some(Compass::W),
        _ => None,
    }
}

/// The card that two bytes name, a suit and then a rank.
pub fn read_card(suit: u8, rank: u8) -> Option<Card>
    ensures { result ≡ card_read suit rank }
{
    let suit = read_suit(suit)?;
    let rank = read_rank(rank)?;
    Some(Card::new(suit, rank))
}
