//! How the cards of a suit are read.
ghost use Rattle.std.specs.Prelude.{◌≡◌, drop};
ghost use Rattle.suit_problem.specs.Written.{with_small, with_rank, with_read, with_letter, with_byte};
ghost use Rattle.suit_problem.specs.Written.{hand_read, lowest, with_smalls, hands_over, hands_read};

use crate::fault::SuitFault;
use crate::hands::SuitHands;
use card_letters::read_rank;
use card_sets::{Card, CardSet, Rank, Suit};

/// A hand of the suit as far as it is read: its cards with a name, how many small ones, and whether
/// the last byte was the 1 of a ten.
#[derive(Clone, Copy, Debug)]
pub(crate) struct Written {
    pub named: CardSet,
    pub small: u8,
    pub one: bool,
}

fn with_small(before: Written) -> Result<Written, SuitFault>
    ensures { result ≡ with_small before }
{
    if before.small >= 13 {
        return Err(SuitFault::TooMany);
    }
    Ok(Written {
        named: before.named,
        small: before.small + 1,
        one: false,
    })
}

fn with_rank(others: CardSet, rank: Rank, before: Written) -> Result<Written, SuitFault>
    ensures { result ≡ with_rank others rank before }
{
    let card = Card::new(Suit::Spades, rank);
    if others.has(card) || before.named.has(card) {
        return Err(SuitFault::Twice(card));
    }
    Ok(Written {
        named: before.named.with(card),
        small: before.small,
        one: false,
    })
}

fn with_letter(others: CardSet, letter: u8, before: Written) -> Result<Written, SuitFault>
    ensures { result ≡ with_letter others letter before }
{
    if letter == b'1' {
        return Ok(Written {
            named: before.named,
            small: before.small,
            one: true,
        });
    }
    if letter == b'X' || letter == b'x' {
        return with_small(before);
    }
    match read_rank(letter) {
        Some(rank) => with_rank(others, rank, before),
        None => Err(SuitFault::NotCards),
    }
}

// The hand after one byte more of its text.
fn with_byte(others: CardSet, byte: u8, before: Written) -> Result<Written, SuitFault>
    ensures { result ≡ with_byte others byte before }
{
    if !before.one {
        return with_letter(others, byte, before);
    }
    if byte == b'0' {
        with_rank(others, Rank::new(10), before)
    } else {
        Err(SuitFault::NotCards)
    }
}

fn read_hand(others: CardSet, text: &[u8]) -> Result<Written, SuitFault>
    ensures { result ≡ hand_read others text.now }
{
    let mut hand = Written {
        named: CardSet::empty(),
        small: 0,
        one: false,
    };
    for byte in text {
        hand = with_byte(others, *byte, hand)?;
    }
    if hand.one {
        return Err(SuitFault::NotCards);
    }
    Ok(hand)
}

// What is left of a set without this many of its cards, from the lowest.
pub(crate) fn above_lowest(cards: CardSet, count: u8) -> CardSet
    ensures { result ≡ drop count cards }
{
    let mut rest = cards;
    for _ in 0..count {
        let _ = rest.pop_first();
    }
    rest
}

// This many cards of a set, from the lowest.
fn lowest(cards: CardSet, count: u8) -> CardSet
    ensures { result ≡ lowest count cards }
{
    cards.minus(above_lowest(cards, count))
}

// The hands with their small cards.
fn with_smalls(free: CardSet, dummy: Written, south: Written) -> SuitHands
    ensures { result ≡ with_smalls free dummy south }
{
    let rest = above_lowest(free, dummy.small);
    SuitHands {
        dummy: dummy.named.either(lowest(free, dummy.small)),
        south: south.named.either(lowest(rest, south.small)),
    }
}

fn hands_over(free: CardSet, dummy: Written, south: Written) -> Result<SuitHands, SuitFault>
    ensures { result ≡ hands_over free dummy south }
{
    if u16::from(free.count()) < u16::from(dummy.small) + u16::from(south.small) {
        return Err(SuitFault::TooMany);
    }
    Ok(with_smalls(free, dummy, south))
}

/// The cards of a suit that two texts tell: dummy's and South's. A card is a rank, in either case,
/// with `10` or `T` for the ten, or `x` for a small card. The small cards are the lowest that
/// neither hand names; dummy has the lowest of them.
///
/// Errors: `NotCards` at anything else; `Twice` at a card that either hand named before; `TooMany`
/// at more than thirteen cards. Dummy's text is read first.
pub fn read_hands(dummy: &[u8], south: &[u8]) -> Result<SuitHands, SuitFault>
    ensures { result ≡ hands_read dummy.now south.now }
{
    let first = read_hand(CardSet::empty(), dummy)?;
    let second = read_hand(first.named, south)?;
    let named = first.named.either(second.named);
    let free = CardSet::pack().of_suit(Suit::Spades).minus(named);
    hands_over(free, first, second)
}
