//! A small ending.

use card_sets::{Card, CardSet, Seat};
use std::process::Abort;
use trick_rules::{Position, Trump};

/// Left's hand in the ending: SQ S5.
pub const LEFT: [u8; 2] = [3, 10];

/// Left's hand with the ace in place of the queen: SA S5.
pub const OTHER: [u8; 2] = [3, 12];

/// The spades of these numbers, of which none is greater than 12.
/// No clause: the tests compare what comes of it with values from outside.
pub fn spades(numbers: [u8; 2]) -> CardSet {
    let mut set = CardSet::empty();
    for number in numbers {
        set = set.with(Card::from_number(number % 13));
    }
    set
}

/// Declarer holds SK SJ, and dummy is to lead S3 or S2 with no trumps. The defenders have SA SQ S7
/// S5, and this many of the two tricks are needed. No clause, as at `spades`.
pub fn ending(rt: &impl Abort, need: u8) -> Position {
    Position::between_tricks(
        spades([9, 11]),
        spades([0, 1]),
        spades([3, 5]).either(spades([10, 12])),
        Seat::Dummy,
        need,
        Trump::NoTrump,
    )
    .expect(rt, "the ending is sound")
}
